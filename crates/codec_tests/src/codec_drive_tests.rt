// A decoder's jobs, done with ample memory.
ghost use Rattle.std.specs.Prelude.{◌≡◌, None, is_some, true};
ghost use Rattle.codec_model.specs.Replay.{State};
ghost use Rattle.codec_core.specs.declared.out.Out.{Out};
ghost use Rattle.codec_core.specs.Job.{IsJobOf, missing_id};
ghost use Rattle.codec_core.specs.Owning.{IsOwnJob};

use bytes::Bytes;
use codec_core::{Core, Job};
use codec_drive::run;
use codec_model::{Call, Kind, Showing, Task};
use coder_api::{Coder, SlotBox, Unit};
use sample_coder::{Coding, SampleCoder};
use sample_conversion::SampleSize;
use std::alloc::Global;
use std::process::Abort;
use std::test::Fail;
use wc_base::{By, Text, Who};
use wc_chunk::Chunk;
use wc_config::{AudioDecoderConfig, Config, Role};

fn pcm(alloc: Global) -> Result<Config, Fail> {
    Ok(Config::AudioDecoder(AudioDecoderConfig {
        codec: Text::of(String::from_str(alloc, "pcm-s16")?),
        rate: 8000,
        channels: 1,
        description: None,
    }))
}

fn chunk(alloc: Global, content: &[u8]) -> Result<Chunk, Fail> {
    Ok(Chunk {
        key: true,
        timestamp: 0,
        duration: None,
        bytes: Bytes::copy_from_slice(alloc, content)?,
    })
}

// Gives a job the box that it lacks.
fn with_box(mut job: Job<SampleCoder>) -> Job<SampleCoder>
    ensures stays { (s : State) → IsJobOf s job → IsJobOf s result }
    ensures own { (out : Out) → IsOwnJob out job → IsOwnJob out result }
    ensures empty { is_some (missing_id result) ≡ true → result.coder ≡ None }
{
    if job.lacks().is_some() {
        let _ = job.take_box();
        let by = By::Codec {
            codec: 0,
            place: job.place(),
        };
        let coder = SlotBox::new(
            SampleCoder::new(Role::Decode, Coding::Pcm(SampleSize::Two)),
            0,
            by,
        );
        if job.lacks() == Some(coder.id()) {
            job.put_box(coder);
        }
    }
    job
}

// Starts the front item, does its job and ends it; whether there was an item, a box and memory.
fn work(alloc: Global, core: &mut Core<SampleCoder>, moment: u64) -> bool {
    let Some(job) = core.start() else {
        return false;
    };
    let job = with_box(job);
    if job.lacks().is_some() {
        core.done(job.no_memory(), moment);
        return false;
    }
    let done = run(alloc, job);
    let fine = !done.wants_memory();
    core.done(done, moment);
    fine
}

// Configures and decodes, and does both jobs.
fn decodes(rt: &impl Abort, alloc: Global, core: &mut Core<SampleCoder>) -> Result<(), Fail> {
    let who = Who { caller: 0, step: 0 };
    core.call(who, Call::Configure(pcm(alloc)?))
        .expect(rt, "configure");
    core.call(who, Call::Decode(chunk(alloc, b"\x01\x00\x02\x00")?))
        .expect(rt, "decode");
    assert!(rt; work(alloc, core, 1));
    assert!(rt; core.turn().is_some() && core.turn().is_some());
    assert!(rt; work(alloc, core, 2));
    assert!(rt; core.turn().is_some() && core.turn().is_some());
    Ok(())
}

fn shows(rt: &impl Abort, core: &Core<SampleCoder>) {
    let [segment] = core.shown() else {
        panic!(rt; "one segment");
    };
    match segment.items() {
        [
            ..,
            Showing::Turn {
                task: Task::Output(units),
                outputs: 0,
            },
        ] => has_frames(rt, units.as_slice()),
        _ => assert!(rt; false),
    }
}

fn has_frames(rt: &impl Abort, units: &[Unit]) {
    match units {
        [Unit::Sound(samples)] => {
            assert_eq!(rt; samples.shape.frames, 2);
            assert_eq!(rt; samples.bytes.as_slice(), b"\x01\x00\x02\x00".as_slice());
        }
        _ => assert!(rt; false),
    }
}

#[test]
fn jobs_are_done(rt: HostRuntime) -> Result<(), Fail> {
    let alloc = rt.alloc();
    let mut core = Core::open(alloc, Kind::AudioDecoder, 4, 2)?;
    decodes(&rt, alloc, &mut core)?;
    shows(&rt, &core);
    Ok(())
}
