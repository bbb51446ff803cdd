//! Runs one decoder of linear PCM alone, with no script and no registry, to measure what its steps cost: `codec_speed
//! decodes N` makes so many decodes, each shown before the next one, and `codec_speed flushes N` so many flushes, all of
//! them called before any is resolved. `codec_speed tasks N` makes so many decodes whose outputs wait, and `codec_speed
//! resets N` the same and then a reset. It prints how many outputs were shown, how many promises resolved, or how many
//! entries there are.
#![tactic(auto)]

ghost use Rattle.std.specs.Prelude.{◌≡◌, None, is_some, true};
ghost use Rattle.codec_model.specs.Replay.{State};
ghost use Rattle.codec_core.specs.declared.out.Out.{Out};
ghost use Rattle.codec_core.specs.Job.{IsJobOf, missing_id};
ghost use Rattle.codec_core.specs.Owning.{IsOwnJob};

use bytes::Bytes;
use codec_core::{Core, Job};
use codec_drive::run;
use codec_model::{Call, Kind, PromiseState, Showing, Task};
use coder_api::{Coder, SlotBox};
use sample_coder::{Coding, SampleCoder};
use sample_conversion::SampleSize;
use std::alloc::Global;
use std::process::ExitCode;
use std::rt::Env;
use std::{env, io};
use wc_base::{By, NoMemory, Text, Who};
use wc_chunk::Chunk;
use wc_config::{AudioDecoderConfig, Config, Role};

const WHO: Who = Who { caller: 0, step: 0 };

fn pcm(alloc: Global) -> Result<Config, NoMemory> {
    Ok(Config::AudioDecoder(AudioDecoderConfig {
        codec: Text::of(String::from_str(alloc, "pcm-s16")?),
        rate: 8000,
        channels: 1,
        description: None,
    }))
}

// A chunk of one sample.
fn chunk(alloc: Global) -> Result<Chunk, NoMemory> {
    let bytes = match Bytes::from_vec(vec![in alloc; 0_u8; 2]?) {
        Ok(bytes) => bytes,
        Err(_) => return Err(NoMemory),
    };
    Ok(Chunk {
        key: true,
        timestamp: 0,
        duration: None,
        bytes,
    })
}

// Gives a job the box that it lacks.
fn give_box(job: &mut Job<SampleCoder>)
    ensures stays { (s : State) → IsJobOf s job.old → IsJobOf s job.new }
    ensures own { (out : Out) → IsOwnJob out job.old → IsOwnJob out job.new }
    ensures empty { is_some (missing_id job.new) ≡ true → job.new.coder ≡ None }
{
    if job.lacks().is_some() {
        let _ = job.take_box();
        let by = By::Codec {
            codec: 0,
            place: job.place(),
        };
        let coder = SlotBox::new(
            SampleCoder::new(Role::Decode, Coding::Pcm(SampleSize::Two)),
            0,
            by,
        );
        if job.lacks() == Some(coder.id()) {
            job.put_box(coder);
        }
    }
}

// Starts the front item, does its job and ends it.
fn work(alloc: Global, core: &mut Core<SampleCoder>, moment: u64) {
    if let Some(mut job) = core.start() {
        give_box(&mut job);
        if job.lacks().is_some() {
            core.done(job.no_memory(), moment);
        } else {
            core.done(run(alloc, job), moment);
        }
    }
}

fn open(alloc: Global) -> Result<Core<SampleCoder>, NoMemory> {
    let mut core = Core::open(alloc, Kind::AudioDecoder, 4, 0)?;
    core.call(WHO, Call::Configure(pcm(alloc)?))?;
    work(alloc, &mut core, 0);
    core.turn();
    core.turn();
    Ok(core)
}

// So many decodes, each with its item and its turns; how many outputs were shown.
fn decodes(alloc: Global, count: u64) -> Result<usize, NoMemory> {
    let mut core = open(alloc)?;
    let chunk = chunk(alloc)?;
    for moment in 0..count {
        core.call(WHO, Call::Decode(chunk.copy()?))?;
        work(alloc, &mut core, moment);
        core.turn();
        core.turn();
    }
    let mut outputs = 0_usize;
    for segment in core.shown() {
        let here = segment.items().iter().filter(|s| is_output(s)).count();
        outputs = outputs.saturating_add(here);
    }
    Ok(outputs)
}

fn is_output(showing: &Showing) -> bool {
    match showing {
        Showing::Turn { task, outputs: _ } => matches!(task, Task::Output(_)),
        _ => false,
    }
}

// So many flushes, and then the item and the turn of each; how many promises resolved.
fn flushes(alloc: Global, count: u64) -> Result<usize, NoMemory> {
    let mut core = open(alloc)?;
    let (first, _, _) = core.look();
    for _flush in 0..count {
        core.call(WHO, Call::Flush)?;
    }
    for moment in 0..count {
        work(alloc, &mut core, moment);
        core.turn();
    }
    let mut resolved = 0_usize;
    for n in 0..count {
        let promise = first.saturating_add(n);
        if core.end_of(promise) == PromiseState::Resolved {
            resolved = resolved.saturating_add(1);
        }
    }
    Ok(resolved)
}

// So many decodes whose outputs wait, and then a reset where it is wanted; how many entries there are.
fn tasks(alloc: Global, count: u64, resets: bool) -> Result<usize, NoMemory> {
    let mut core = open(alloc)?;
    let chunk = chunk(alloc)?;
    for moment in 0..count {
        core.call(WHO, Call::Decode(chunk.copy()?))?;
        work(alloc, &mut core, moment);
    }
    core.reserve(1)?;
    if resets {
        core.call(WHO, Call::Reset)?;
    }
    let (entries, _, _) = core.look();
    Ok(entries as usize)
}

fn words(rt: &(impl Env + Alloc<A = Global>)) -> io::Result<Vec<String>> {
    let mut words = Vec::new(rt.alloc());
    for word in env::args(rt)?.skip(1) {
        words.push(word)?;
    }
    Ok(words)
}

// What the words ask for, if they ask for something.
fn measure(alloc: Global, words: &[String]) -> Result<Option<usize>, NoMemory> {
    let [work, count] = words else {
        return Ok(None);
    };
    match (work.as_str(), count.as_str().parse::<u64>()) {
        ("decodes", Ok(count)) => Ok(Some(decodes(alloc, count)?)),
        ("flushes", Ok(count)) => Ok(Some(flushes(alloc, count)?)),
        ("tasks", Ok(count)) => Ok(Some(tasks(alloc, count, false)?)),
        ("resets", Ok(count)) => Ok(Some(tasks(alloc, count, true)?)),
        _ => Ok(None),
    }
}

fn main(rt: HostRuntime) -> ExitCode {
    let Ok(words) = words(&rt) else {
        return ExitCode::from(1);
    };
    match measure(rt.alloc(), &words) {
        Ok(Some(count)) => match println!(rt; "{count}") {
            Ok(()) => ExitCode::from(0),
            Err(_) => ExitCode::from(5),
        },
        Ok(None) => ExitCode::from(2),
        Err(NoMemory) => ExitCode::from(6),
    }
}
