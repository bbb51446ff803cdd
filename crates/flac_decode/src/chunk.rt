// Chunks.
ghost use Rattle.std.specs.Prelude.{◌≡◌, Some};
ghost use Rattle.codec_definitions.specs.Flac.{flac_units, flac_format};
ghost use Rattle.coder_api.specs.Meaning.{Answers};
ghost use Rattle.flac_decode.specs.Coder.{GivesUnit};

use crate::fault::FrameFault;
use crate::frame::decode_frame;
use bytes::Bytes;
use codec_definitions::Unit;
use coder_api::CoderFault;
use std::alloc::Global;
use wc_base::{SampleFormat, Samples, SoundShape};
use wc_chunk::Chunk;
use wc_config::StreamInfo;

/// Appends the samples of one chunk.
pub fn decode_chunk(
    alloc: Global,
    info: &StreamInfo,
    chunk: &Chunk,
    residual: &mut Vec<i32>,
    samples: &mut Vec<i64>,
    out: &mut Vec<Unit>,
) -> Result<(), CoderFault>
    ensures { Answers (flac_units (Some info.now) chunk.now) result out.old.items out.new.items }
{
    let unit = match unit_of(alloc, info, chunk, residual, samples) {
        Ok(unit) => unit,
        Err(e) => return Err(e),
    };
    match out.push(unit) {
        Ok(()) => Ok(()),
        Err(_) => Err(CoderFault::NoMemory),
    }
}

/// The samples of one chunk.
fn unit_of(
    alloc: Global,
    info: &StreamInfo,
    chunk: &Chunk,
    residual: &mut Vec<i32>,
    samples: &mut Vec<i64>,
) -> Result<Unit, CoderFault>
    ensures { GivesUnit (flac_units (Some info.now) chunk.now) result }
{
    let mut bytes = Vec::new(alloc);
    let frames = match decode_frame(chunk.bytes.as_slice(), info, residual, samples, &mut bytes) {
        Ok(frames) => frames,
        Err(FrameFault::Refused) => return Err(CoderFault::Refused),
        Err(FrameFault::NoMemory) => return Err(CoderFault::NoMemory),
    };
    let bytes = match Bytes::from_vec(bytes) {
        Ok(bytes) => bytes,
        Err(_) => return Err(CoderFault::NoMemory),
    };
    Ok(Unit::Sound(Samples {
        shape: SoundShape {
            format: flac_format(info.depth),
            rate: info.rate,
            channels: info.channels,
            frames,
            timestamp: chunk.timestamp,
        },
        bytes,
    }))
}

fn flac_format(depth: u32) -> SampleFormat
    ensures { result ≡ flac_format depth }
{
    if depth <= 16 {
        SampleFormat::S16
    } else {
        SampleFormat::S32
    }
}
