// Configs, chunks and samples of their parts.
ghost use Rattle.std.specs.Prelude.{◌≡◌, ◌≤◌, IfOk, IfSome, is_none, option_map};
ghost use Rattle.wc_audio.specs.Sound.{needed, is_invalid};
ghost use Rattle.engine.specs.Sounds.{samples_of, shape_with, format_with};
ghost use Rattle.engine.specs.Steps.{IsDecoderConfig, IsEncoderConfig, chunk_of, if_given, medium_of};

use crate::answers::{AudioConfig, ChunkHead, EncoderNumbers, SamplesHead, format_with};
use bytes::Bytes;
use codec_model::{HeldMedium, MediaShape, Pair};
use sample_conversion::format_size;
use std::alloc::Global;
use std::str;
use wc_base::{NoMemory, Samples, SoundShape, Text};
use wc_chunk::Chunk;
use wc_config::{AudioDecoderConfig, AudioEncoderConfig, Config};

pub(crate) fn decoder_config_of(
    alloc: Global,
    config: &AudioConfig,
    codec: &[u8],
    description: &[u8],
) -> Result<Config, NoMemory>
    ensures { IfOk result
        (IsDecoderConfig config.now.rate config.now.channels codec.now
        (if_given config.now.has_description description.now)) }
{
    let codec = match str::from_utf8(codec) {
        Ok(codec) => codec,
        Err(_) => return Ok(Config::Bad),
    };
    let codec = Text::of(String::from_str(alloc, codec)?);
    let description = if config.has_description == 0 {
        None
    } else {
        Some(Bytes::copy_from_slice(alloc, description)?)
    };
    Ok(Config::AudioDecoder(AudioDecoderConfig {
        codec,
        rate: config.rate,
        channels: config.channels,
        description,
    }))
}

pub(crate) fn encoder_config_of(
    alloc: Global,
    numbers: &EncoderNumbers,
    codec: &[u8],
) -> Result<Config, NoMemory>
    ensures { IfOk result (IsEncoderConfig numbers.now codec.now) }
{
    let codec = match str::from_utf8(codec) {
        Ok(codec) => codec,
        Err(_) => return Ok(Config::Bad),
    };
    let codec = Text::of(String::from_str(alloc, codec)?);
    Ok(Config::AudioEncoder(AudioEncoderConfig {
        codec,
        rate: numbers.rate,
        channels: numbers.channels,
        block_size: numbers.block_size,
        level: numbers.level,
        depth: numbers.depth,
    }))
}

pub(crate) fn chunk_of(alloc: Global, head: &ChunkHead, bytes: &[u8]) -> Result<Chunk, NoMemory>
    ensures { IfOk result (λ c. c ≡ chunk_of head.now bytes.now) }
{
    let bytes = Bytes::copy_from_slice(alloc, bytes)?;
    let duration = if head.has_duration == 0 {
        None
    } else {
        Some(head.duration)
    };
    Ok(Chunk {
        key: head.key != 0,
        timestamp: head.timestamp,
        duration,
        bytes,
    })
}

/// As many bytes as a shape needs; none where there are fewer, or it has no rate, frame or channel.
fn needed(shape: &SoundShape, bytes: usize) -> Option<usize>
    ensures some { IfSome result (λ n. (n ≡ needed shape.now) × (n ≤ bytes)) }
    ensures none { is_none result ≡ is_invalid shape.now bytes }
{
    if shape.rate == 0 || shape.frames == 0 || shape.channels == 0 {
        return None;
    }
    let samples = shape.frames as u64 * shape.channels as u64;
    let size = format_size(shape.format);
    if (bytes / size) as u64 >= samples {
        Some(samples as usize * size)
    } else {
        None
    }
}

/// The shape of samples, where a format has its code.
fn shape_of(head: &SamplesHead) -> Option<SoundShape>
    ensures { result ≡ option_map (shape_with head.now) (format_with head.now.format) }
{
    let format = format_with(head.format)?;
    Some(SoundShape {
        format,
        rate: head.rate,
        channels: head.channels,
        frames: head.frames,
        timestamp: head.timestamp,
    })
}

/// The samples of these parts: none where no format has this code, or the constructor of AudioData
/// refuses them.
pub(crate) fn samples_of(
    alloc: Global,
    head: &SamplesHead,
    bytes: &[u8],
) -> Result<Option<Samples>, NoMemory>
    ensures { IfOk result (λ s. s ≡ samples_of head.now bytes.now) }
{
    let Some(shape) = shape_of(head) else {
        return Ok(None);
    };
    match needed(&shape, bytes.len()) {
        Some(count) => {
            let bytes = Bytes::copy_from_slice(alloc, &bytes[..count])?;
            Ok(Some(Samples { shape, bytes }))
        }
        None => Ok(None),
    }
}

/// Samples as an encoder's queues have them.
pub(crate) fn medium_of(samples: Samples) -> HeldMedium
    ensures { result ≡ medium_of samples }
{
    HeldMedium {
        shape: MediaShape::Sound(samples.shape),
        bytes: samples.bytes,
        pair: Pair {
            resource: 0,
            reference: 0,
        },
    }
}
