// Decoding.
ghost use Rattle.std.specs.Prelude.{◌≡◌, ◌<◌};
ghost use Rattle.codec_definitions.specs.SampleCodecs.{sample_units};
ghost use Rattle.coder_api.specs.Meaning.{Answers};
ghost use Rattle.sample_coder.specs.Coding.{definition};

use crate::coding::Coding;
use crate::units::push_unit;
use codec_definitions::Unit;
use coder_api::CoderFault;
use std::alloc::Global;
use wc_base::{Samples, SoundShape};
use wc_chunk::Chunk;
use wc_config::AudioDecoderConfig;

/// Appends the samples of one chunk.
pub fn decode(
    alloc: Global,
    coding: Coding,
    config: &AudioDecoderConfig,
    chunk: &Chunk,
    out: &mut Vec<Unit>,
) -> Result<(), CoderFault>
    requires { 0 < config.now.channels }
    ensures { Answers
        (sample_units (definition coding) config.now chunk.now) result out.old.items out.new.items }
{
    let frame = coding.size() * config.channels as usize;
    let len = chunk.bytes.len();
    if len == 0 {
        return Ok(());
    }
    if len % frame != 0 || len / frame >= 0x1_0000_0000 {
        return Err(CoderFault::Refused);
    }
    let Ok(bytes) = coding.decoded(alloc, &chunk.bytes) else {
        return Err(CoderFault::NoMemory);
    };
    let unit = Unit::Sound(Samples {
        shape: SoundShape {
            format: coding.format(),
            rate: config.rate,
            channels: config.channels,
            frames: (len / frame) as u32,
            timestamp: chunk.timestamp,
        },
        bytes,
    });
    push_unit(out, unit)
}
