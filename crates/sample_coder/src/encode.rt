// Encoding.
ghost use Rattle.std.specs.Prelude.{◌≡◌, ◌<◌, ◌≤◌};
ghost use Rattle.codec_definitions.specs.SampleCodecs.{sample_chunk};
ghost use Rattle.coder_api.specs.Meaning.{Answers};
ghost use Rattle.sample_coder.specs.Coding.{definition};

use crate::coding::Coding;
use crate::units::push_unit;
use codec_definitions::Unit;
use coder_api::CoderFault;
use sample_conversion::is_whole;
use std::alloc::Global;
use wc_base::SoundShape;
use wc_chunk::Chunk;
use wc_config::AudioEncoderConfig;

/// Appends the chunk of some samples.
pub fn encode(
    alloc: Global,
    coding: Coding,
    config: &AudioEncoderConfig,
    shape: &SoundShape,
    bytes: &[u8],
    out: &mut Vec<Unit>,
) -> Result<(), CoderFault>
    requires rate { 0 < config.now.rate }
    requires channels { config.now.channels ≤ 32 }
    ensures { Answers
        (sample_chunk (definition coding) config.now
        (record { shape = shape.now; bytes = bytes.now })) result out.old.items out.new.items }
{
    if shape.rate != config.rate || shape.channels != config.channels || !is_whole(shape, bytes) {
        return Err(CoderFault::Refused);
    }
    let Ok(bytes) = coding.coded(alloc, shape, bytes) else {
        return Err(CoderFault::NoMemory);
    };
    let chunk = Chunk {
        key: true,
        timestamp: shape.timestamp,
        duration: Some(shape.frames as u64 * 1_000_000 / shape.rate as u64),
        bytes,
    };
    push_unit(
        out,
        Unit::Coded {
            chunk,
            config: None,
        },
    )
}
