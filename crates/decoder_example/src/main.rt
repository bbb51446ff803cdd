//! An example of the crates: a decoder of mu-law with its queues is configured and given one chunk, and prints the
//! samples that its output has.
#![tactic(auto)]

ghost use Rattle.std.specs.Prelude.{◌≡◌, None, is_some, true};
ghost use Rattle.codec_model.specs.Replay.{State};
ghost use Rattle.codec_core.specs.declared.out.Out.{Out};
ghost use Rattle.codec_core.specs.Job.{IsJobOf, missing_id};
ghost use Rattle.codec_core.specs.Owning.{IsOwnJob};

use bytes::Bytes;
use codec_core::{Core, Job};
use codec_drive::run;
use codec_model::{Call, Kind};
use coder_api::{Coder, SlotBox, Unit};
use g711::Law;
use sample_coder::{Coding, SampleCoder};
use std::alloc::Global;
use std::io;
use std::process::ExitCode;
use wc_base::{By, NoMemory, Samples, Text, Who};
use wc_chunk::Chunk;
use wc_config::{AudioDecoderConfig, Config, Role};

// Whose calls these are: the first step of the first caller.
const WHO: Who = Who { caller: 0, step: 0 };

fn config(alloc: Global) -> Result<Config, NoMemory> {
    Ok(Config::AudioDecoder(AudioDecoderConfig {
        codec: Text::of(String::from_str(alloc, "ulaw")?),
        rate: 8000,
        channels: 1,
        description: None,
    }))
}

fn chunk() -> Chunk {
    Chunk {
        key: true,
        timestamp: 0,
        duration: None,
        bytes: Bytes::from_static(&[0xff, 0xf0, 0x00, 0x80]),
    }
}

// Gives a job the coder that it lacks, in a box with the number 0.
fn with_box(mut job: Job<SampleCoder>) -> Job<SampleCoder>
    ensures stays { (s : State) → IsJobOf s job → IsJobOf s result }
    ensures own { (out : Out) → IsOwnJob out job → IsOwnJob out result }
    ensures empty { is_some (missing_id result) ≡ true → result.coder ≡ None }
{
    if job.lacks().is_some() {
        let _ = job.take_box();
        let by = By::Codec {
            codec: 0,
            place: job.place(),
        };
        let coder = SlotBox::new(
            SampleCoder::new(Role::Decode, Coding::G711(Law::Ulaw)),
            0,
            by,
        );
        if job.lacks() == Some(coder.id()) {
            job.put_box(coder);
        }
    }
    job
}

// Starts the front work item, does its work, and ends it at this moment.
fn work(alloc: Global, core: &mut Core<SampleCoder>, moment: u64) {
    if let Some(job) = core.start() {
        let job = with_box(job);
        if job.lacks().is_some() {
            core.done(job.no_memory(), moment);
        } else {
            core.done(run(alloc, job), moment);
        }
    }
}

// Takes the first output, if one is shown. The take has an entry in the codec's history, as each call has.
fn take(core: &mut Core<SampleCoder>) -> Result<Option<Unit>, NoMemory> {
    core.reserve(1)?;
    let unit = match core.next_output() {
        Some(unit) => unit.copy()?,
        None => return Ok(None),
    };
    let number = core.taken();
    core.call(WHO, Call::Take(number))?;
    Ok(Some(unit))
}

// The output of the chunk: a configure with its work and two event tasks, a decode with its work and two event tasks, and a
// take.
fn decoded(alloc: Global) -> Result<Option<Unit>, NoMemory> {
    let mut core = Core::open(alloc, Kind::AudioDecoder, 4, 0)?;
    core.call(WHO, Call::Configure(config(alloc)?))?;
    work(alloc, &mut core, 1);
    core.turn();
    core.turn();
    core.call(WHO, Call::Decode(chunk()))?;
    work(alloc, &mut core, 2);
    core.turn();
    core.turn();
    take(&mut core)
}

// The sample of this number, of 16 bits.
fn sample(bytes: &[u8], n: usize) -> Option<i16> {
    let at = n.saturating_mul(2);
    let low = bytes.get(at)?;
    let high = bytes.get(at.saturating_add(1))?;
    Some(i16::from_le_bytes([*low, *high]))
}

fn print(rt: &impl Print, sound: &Samples) -> io::Result<()> {
    let frames = sound.shape.frames;
    let rate = sound.shape.rate;
    println!(rt; "{frames} frames at {rate} Hz")?;
    for n in 0..frames {
        if let Some(value) = sample(&sound.bytes, n as usize) {
            println!(rt; "{value}")?;
        }
    }
    Ok(())
}

fn main(rt: HostRuntime) -> ExitCode {
    match decoded(rt.alloc()) {
        Ok(Some(Unit::Sound(sound))) => match print(&rt, &sound) {
            Ok(()) => ExitCode::from(0),
            Err(_) => ExitCode::from(5),
        },
        Ok(_) => ExitCode::from(1),
        Err(NoMemory) => ExitCode::from(6),
    }
}
