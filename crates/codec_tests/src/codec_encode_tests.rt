// An encoder's encodes with ample memory: refused ones, two that are coded, what they show, and takes of it.
ghost use Rattle.std.specs.Prelude.{◌≡◌, None, is_some, true};
ghost use Rattle.codec_model.specs.Replay.{State};
ghost use Rattle.codec_core.specs.declared.out.Out.{Out};
ghost use Rattle.codec_core.specs.Job.{IsJobOf, missing_id};
ghost use Rattle.codec_core.specs.Owning.{IsOwnJob};

use bytes::Bytes;
use codec_core::{Core, Job};
use codec_drive::run;
use codec_model::{Call, Handed, HeldMedium, Kind, MediaShape, Pair};
use coder_api::{Coder, SlotBox, Unit};
use sample_coder::{Coding, SampleCoder};
use sample_conversion::SampleSize;
use std::alloc::Global;
use std::process::Abort;
use std::test::Fail;
use wc_base::{By, DomError, SampleFormat, SoundShape, Text, Who};
use wc_config::{AudioEncoderConfig, Config, Role};

const WHO: Who = Who { caller: 0, step: 0 };

fn pcm(alloc: Global) -> Result<Config, Fail> {
    Ok(Config::AudioEncoder(AudioEncoderConfig {
        codec: Text::of(String::from_str(alloc, "pcm-s16")?),
        rate: 8000,
        channels: 1,
        block_size: 0,
        level: 5,
        depth: 16,
    }))
}

// One frame of 16 bits, held by a reference of this number.
fn sound(alloc: Global, reference: u64, content: &[u8]) -> Result<HeldMedium, Fail> {
    Ok(HeldMedium {
        shape: MediaShape::Sound(SoundShape {
            format: SampleFormat::S16,
            rate: 8000,
            channels: 1,
            frames: 1,
            timestamp: 0,
        }),
        bytes: Bytes::copy_from_slice(alloc, content)?,
        pair: Pair {
            resource: 0,
            reference,
        },
    })
}

// Gives a job the box that it lacks.
fn with_box(mut job: Job<SampleCoder>) -> Job<SampleCoder>
    ensures stays { (s : State) → IsJobOf s job → IsJobOf s result }
    ensures own { (out : Out) → IsOwnJob out job → IsOwnJob out result }
    ensures empty { is_some (missing_id result) ≡ true → result.coder ≡ None }
{
    if job.lacks().is_some() {
        let _ = job.take_box();
        let by = By::Codec {
            codec: 0,
            place: job.place(),
        };
        let coder = SlotBox::new(
            SampleCoder::new(Role::Encode, Coding::Pcm(SampleSize::Two)),
            0,
            by,
        );
        if job.lacks() == Some(coder.id()) {
            job.put_box(coder);
        }
    }
    job
}

// Starts the front item, does its job and ends it; whether there was an item, a box and memory.
fn work(alloc: Global, core: &mut Core<SampleCoder>, moment: u64) -> bool {
    let Some(job) = core.start() else {
        return false;
    };
    let job = with_box(job);
    if job.lacks().is_some() {
        core.done(job.no_memory(), moment);
        return false;
    }
    let done = run(alloc, job);
    let fine = !done.wants_memory();
    core.done(done, moment);
    fine
}

// The place of an encode that is not refused; none of one that is, or that wanted memory.
fn encode(core: &mut Core<SampleCoder>, sound: HeldMedium) -> Option<u64> {
    match core.encode_refusal(false) {
        Some(_) => None,
        None => {
            let reply = core.call(WHO, Call::Encode(Handed::Cloned(sound))).ok()?;
            Some(reply.place)
        }
    }
}

// The exception of a refused encode and its place; none of one that is not refused.
fn refused(core: &mut Core<SampleCoder>, detached: bool) -> Option<(DomError, u64)> {
    if core.spare() == 0 || core.encode_refusal(detached).is_none() {
        return None;
    }
    let handed = Handed::of_refused(detached);
    let reply = core.call(WHO, Call::Encode(handed)).ok()?;
    Some((reply.exception?, reply.place))
}

// The byte in front of a coded chunk, and whether a config is carried.
fn parts(unit: &Unit) -> Option<(u8, bool)> {
    match unit {
        Unit::Coded { chunk, config } => {
            let front = *chunk.bytes.as_slice().first()?;
            Some((front, config.is_some()))
        }
        _ => None,
    }
}

// Takes the next output; none where there is none.
fn take(core: &mut Core<SampleCoder>) -> Option<(u8, bool)> {
    if core.spare() == 0 {
        return None;
    }
    let found = parts(core.next_output()?)?;
    let number = core.taken();
    core.call(WHO, Call::Take(number)).ok()?;
    Some(found)
}

fn refuses(rt: &impl Abort, core: &mut Core<SampleCoder>) {
    assert_eq!(rt; refused(core, true), Some((DomError::TypeErr, 0)));
    assert_eq!(rt; refused(core, false), Some((DomError::InvalidState, 1)));
}

// Configures and encodes twice, and does the three jobs.
fn codes(rt: &impl Abort, alloc: Global, core: &mut Core<SampleCoder>) -> Result<(), Fail> {
    core.call(WHO, Call::Configure(pcm(alloc)?))
        .expect(rt, "configure");
    assert_eq!(rt; encode(core, sound(alloc, 0, b"\x01\x00")?), Some(3));
    assert_eq!(rt; encode(core, sound(alloc, 1, b"\x02\x00")?), Some(4));
    assert!(rt; work(alloc, core, 1));
    assert!(rt; core.turn().is_some() && core.turn().is_some());
    assert!(rt; work(alloc, core, 2));
    assert!(rt; core.turn().is_some() && core.turn().is_some());
    assert!(rt; work(alloc, core, 3));
    assert!(rt; core.turn().is_some() && core.turn().is_none());
    Ok(())
}

fn takes(rt: &impl Abort, core: &mut Core<SampleCoder>) {
    assert_eq!(rt; take(core), Some((1, true)));
    assert_eq!(rt; take(core), Some((2, false)));
    assert_eq!(rt; core.taken(), 2);
    assert_eq!(rt; take(core), None);
}

#[test]
fn encodes_are_coded_and_taken(rt: HostRuntime) -> Result<(), Fail> {
    let alloc = rt.alloc();
    let mut core = Core::open(alloc, Kind::AudioEncoder, 4, 5)?;
    refuses(&rt, &mut core);
    codes(&rt, alloc, &mut core)?;
    takes(&rt, &mut core);
    Ok(())
}
