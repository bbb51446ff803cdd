// Decodes of a codec that no lock stands round.
ghost use Rattle.std.specs.Prelude.{◌≡◌, None, is_some, true};
ghost use Rattle.codec_model.specs.Replay.{State};
ghost use Rattle.codec_core.specs.declared.out.Out.{Out};
ghost use Rattle.codec_core.specs.Job.{IsJobOf, missing_id};
ghost use Rattle.codec_core.specs.Owning.{IsOwnJob};

use bytes::Bytes;
use codec_core::{Core, Job};
use codec_model::{Call, Kind};
use coder_api::{Coder, SlotBox};
use sample_coder::{Coding, SampleCoder};
use sample_conversion::SampleSize;
use std::alloc::Global;
use wc_base::{By, NoMemory, Text, Who};
use wc_chunk::Chunk;
use wc_config::{AudioDecoderConfig, Config, Role};

pub const WHO: Who = Who { caller: 0, step: 0 };

pub fn coder() -> SampleCoder {
    SampleCoder::new(Role::Decode, Coding::Pcm(SampleSize::Two))
}

/// The config of all decoders here.
pub fn pcm(alloc: Global) -> Result<Config, NoMemory> {
    Ok(Config::AudioDecoder(AudioDecoderConfig {
        codec: Text::of(String::from_str(alloc, "pcm-s16")?),
        rate: 8000,
        channels: 1,
        description: None,
    }))
}

/// A chunk of one sample.
pub fn chunk(alloc: Global) -> Result<Chunk, NoMemory> {
    let bytes = match Bytes::from_vec(vec![in alloc; 0_u8; 2]?) {
        Ok(bytes) => bytes,
        Err(_) => return Err(NoMemory),
    };
    Ok(Chunk {
        key: true,
        timestamp: 0,
        duration: None,
        bytes,
    })
}

// Gives a job the box that it lacks.
fn give_box(job: &mut Job<SampleCoder>)
    ensures stays { (s : State) → IsJobOf s job.old → IsJobOf s job.new }
    ensures own { (out : Out) → IsOwnJob out job.old → IsOwnJob out job.new }
    ensures empty { is_some (missing_id job.new) ≡ true → job.new.coder ≡ None }
{
    if job.lacks().is_some() {
        let _ = job.take_box();
        let by = By::Codec {
            codec: 0,
            place: job.place(),
        };
        let coder = SlotBox::new(
            SampleCoder::new(Role::Decode, Coding::Pcm(SampleSize::Two)),
            0,
            by,
        );
        if job.lacks() == Some(coder.id()) {
            job.put_box(coder);
        }
    }
}

// Starts the front item, does its job and ends it.
fn work(alloc: Global, core: &mut Core<SampleCoder>, moment: u64) {
    if let Some(mut job) = core.start() {
        give_box(&mut job);
        if job.lacks().is_some() {
            core.done(job.no_memory(), moment);
        } else {
            core.done(job.perform(alloc), moment);
        }
    }
}

fn open(alloc: Global) -> Result<Core<SampleCoder>, NoMemory> {
    let mut core = Core::open(alloc, Kind::AudioDecoder, 4, 0)?;
    core.call(WHO, Call::Configure(pcm(alloc)?))?;
    work(alloc, &mut core, 0);
    core.turn();
    core.turn();
    Ok(core)
}

/// So many decodes, each with its item and its turns; how many entries there are.
pub fn plain_entries(alloc: Global, count: u64) -> Result<u64, NoMemory> {
    let mut core = open(alloc)?;
    let chunk = chunk(alloc)?;
    for moment in 0..count {
        core.call(WHO, Call::Decode(chunk.copy()?))?;
        work(alloc, &mut core, moment);
        core.turn();
        core.turn();
    }
    let (entries, _, _) = core.look();
    Ok(entries)
}
