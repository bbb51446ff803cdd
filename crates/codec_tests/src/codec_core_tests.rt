ghost use Rattle.std.specs.Prelude.{◌≡◌, None, is_some, true, unwrap_or, option_map};
ghost use Rattle.coder_api.specs.Meaning.{Configured, Stopped, new_state};
ghost use Rattle.wc_config.specs.declared.config.Config.TheVariants.{AudioDecoder};
ghost use Rattle.wc_config.specs.declared.codec.Role.TheVariants as role;
ghost use Rattle.wc_config.specs.declared.codec.CodecId.TheVariants as codec;
ghost use Rattle.codec_model.specs.Replay.{State};
ghost use Rattle.codec_core.specs.declared.out.Out.{Out};
ghost use Rattle.codec_core.specs.Job.{IsJobOf, missing_id};
ghost use Rattle.codec_core.specs.Owning.{IsOwnJob};

use codec_core::{Core, Job};
use codec_model::{Call, CodecState, Event, Kind, PromiseState, TurnWord, shown_list};
use coder_api::{Coder, CoderFault, Input, SlotBox, Unit};
use std::alloc::{AllocError, Global};
use std::process::Abort;
use std::test::Fail;
use wc_base::{By, DomError, Ground, NoMemory, Text, Who};
use wc_config::{AudioDecoderConfig, CodecId, CoderId, Config, Role};

// A decoder of 16-bit PCM that never has memory for a chunk.
#[derive(Drop)]
struct Quiet {
    config: Option<AudioDecoderConfig>,
}

impl Coder for Quiet {
    ghost coder = { λ q. record { role = role.Decode; codec = codec.PcmS16 } };

    ghost meaning = { λ q. unwrap_or (option_map (λ c. Configured (AudioDecoder c) new_state) q.config) Stopped };

    fn id(&self) -> CoderId {
        CoderId {
            role: Role::Decode,
            codec: CodecId::PcmS16,
        }
    }

    fn supports(&self, config: &Config) -> bool {
        match config.coder_id() {
            Some(id) => config.supported() && id == self.id(),
            None => false,
        }
    }

    fn configure(&mut self, _alloc: Global, config: &Config) -> Result<(), NoMemory> {
        self.config = None;
        match config {
            Config::AudioDecoder(c) => {
                self.config = Some(c.copy()?);
                Ok(())
            }
            _ => Err(NoMemory),
        }
    }

    fn setup(&self, _alloc: Global) -> Result<Option<AudioDecoderConfig>, NoMemory> {
        Err(NoMemory)
    }

    fn push(
        &mut self,
        _alloc: Global,
        _input: &Input<'_>,
        _out: &mut Vec<Unit>,
    ) -> Result<(), CoderFault> {
        self.config = None;
        Err(CoderFault::NoMemory)
    }

    fn drain(&mut self, _alloc: Global, _out: &mut Vec<Unit>) -> Result<(), NoMemory> {
        match &self.config {
            Some(_) => Ok(()),
            None => Err(NoMemory),
        }
    }

    fn stop(&mut self) {
        self.config = None;
    }
}

fn pcm(alloc: Global) -> Result<Config, AllocError> {
    Ok(Config::AudioDecoder(AudioDecoderConfig {
        codec: Text::of(String::from_str(alloc, "pcm-s16")?),
        rate: 8000,
        channels: 1,
        description: None,
    }))
}

// Gives a job the box that it lacks.
fn with_box(mut job: Job<Quiet>) -> Job<Quiet>
    ensures stays { (s : State) → IsJobOf s job → IsJobOf s result }
    ensures own { (out : Out) → IsOwnJob out job → IsOwnJob out result }
    ensures empty { is_some (missing_id result) ≡ true → result.coder ≡ None }
{
    if job.lacks().is_some() {
        let _ = job.take_box();
        let by = By::Codec {
            codec: 0,
            place: job.place(),
        };
        let coder = SlotBox::new(Quiet { config: None }, 0, by);
        if job.lacks() == Some(coder.id()) {
            job.put_box(coder);
        }
    }
    job
}

// Starts the front item, works on it and ends it; the answer is whether it came to an end with memory.
fn work(alloc: Global, core: &mut Core<Quiet>, moment: u64) -> bool {
    let Some(job) = core.start() else {
        return false;
    };
    let job = with_box(job);
    if job.lacks().is_some() {
        core.done(job.no_memory(), moment);
        return false;
    }
    let done = job.perform(alloc);
    let fine = !done.wants_memory();
    core.done(done, moment);
    fine
}

const WHO: Who = Who { caller: 0, step: 0 };

// Configures and flushes.
fn begins(rt: &impl Abort, alloc: Global, core: &mut Core<Quiet>) -> Result<(), Fail> {
    let configured = core
        .call(WHO, Call::Configure(pcm(alloc)?))
        .expect(rt, "configure");
    assert_eq!(rt; (configured.place, configured.promise), (0, None));
    let flushed = core.call(WHO, Call::Flush).expect(rt, "flush");
    assert_eq!(rt; (flushed.place, flushed.promise), (1, Some(1)));
    Ok(())
}

// Both items start and end, and the turns after them run.
fn runs(rt: &impl Abort, alloc: Global, core: &mut Core<Quiet>) {
    assert!(rt; work(alloc, core, 1));
    assert!(rt; core.turn().is_some() && core.turn().is_some());
    assert!(rt; work(alloc, core, 2));
    assert_eq!(rt; core.end_of(1), PromiseState::Pending);
    assert!(rt; core.turn().is_some());
    assert_eq!(rt; core.end_of(1), PromiseState::Resolved);
    assert_eq!(rt; core.look(), (9, CodecState::Configured, 0));
    assert_eq!(rt; core.progress(), Some(2));
    assert_eq!(rt;
        core.holding(),
        (Some(2), Ground::Foreground, Kind::AudioDecoder)
    );
}

fn closes(rt: &impl Abort, core: &mut Core<Quiet>) {
    assert!(rt; core.spare() >= 2);
    let closed = core.call(WHO, Call::Close).expect(rt, "close");
    assert!(rt; closed.exception.is_none() && closed.coder.is_some());
    let again = core.call(WHO, Call::Reset).expect(rt, "reset");
    let refusal = Some(DomError::InvalidState);
    assert_eq!(rt; (again.place, again.exception), (10, refusal));
}

#[test]
fn ordinary_run(rt: HostRuntime) -> Result<(), Fail> {
    let alloc = rt.alloc();
    let mut core = Core::open(alloc, Kind::AudioDecoder, 4, 2).expect(&rt, "a codec");
    begins(&rt, alloc, &mut core)?;
    runs(&rt, alloc, &mut core);
    closes(&rt, &mut core);
    let (entries, showings, slot) = core.into_parts();
    assert!(rt; slot.is_none());
    assert_eq!(rt; (entries.len(), showings.len()), (11, 11));
    let segment = showings.into_segments().pop().expect(&rt, "a segment");
    let shown = shown_list(alloc, segment.into_items())?;
    assert_eq!(rt; shown.len(), 11);
    assert_eq!(rt; shown[8].turn, Some(TurnWord::Flushed));
    assert_eq!(rt; shown[8].events.as_slice(), [Event::Resolve(1)].as_slice());
    assert_eq!(rt;
        shown[10].events.as_slice(),
        [Event::Refusal(DomError::InvalidState)].as_slice()
    );
    Ok(())
}

#[test]
fn each_of_many_flushes_is_rejected(rt: HostRuntime) -> Result<(), Fail> {
    let alloc = rt.alloc();
    let mut core: Core<Quiet> = Core::open(alloc, Kind::AudioDecoder, 4, 0).expect(&rt, "a codec");
    for _flush in 0..1025 {
        assert!(rt; core.call(WHO, Call::Flush).is_ok());
    }
    let rejected = PromiseState::Rejected(DomError::InvalidState);
    assert_eq!(rt; (core.end_of(0), core.end_of(1024)), (rejected, rejected));
    assert_eq!(rt; core.end_of(1025), PromiseState::Pending);
    let [whole, last] = core.segments() else {
        panic!(rt; "two segments");
    };
    assert_eq!(rt; (whole.first(), whole.items().len()), (0, 1024));
    assert_eq!(rt; (last.first(), last.items().len()), (1024, 1));
    Ok(())
}
