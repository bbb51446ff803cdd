// The description of an encoder's stream, and the config with which it is decoded.
ghost use Rattle.std.specs.Prelude.{◌≡◌, IfOk};
ghost use Rattle.codec_definitions.specs.FlacCode.{stream_of, stream_description};
ghost use Rattle.coder_api.specs.Meaning.{description_for};
ghost use Rattle.flac_definitions.specs.Descriptions.{CanBeWritten};
ghost use Rattle.flac_encode.specs.Steps.{IsRanged};

use crate::block::bytes_are_of_bits;
use crate::encoder::block_frames;
use bytes::Bytes;
use flac_description::{StreamInfo, write_streaminfo};
use std::alloc::Global;
use wc_base::NoMemory;
use wc_config::{AudioDecoderConfig, AudioEncoderConfig};

/// The config with which the outputs of an encoder are decoded.
pub fn decoder_config(
    alloc: Global,
    config: &AudioEncoderConfig,
) -> Result<AudioDecoderConfig, NoMemory>
    requires { IsRanged config.now }
    ensures { IfOk result (λ d. d ≡ record {
      codec = config.now.codec;
      rate = config.now.rate;
      channels = config.now.channels;
      description = description_for config.now;
    }) }
{
    Ok(AudioDecoderConfig {
        codec: config.codec.copy()?,
        rate: config.rate,
        channels: config.channels,
        description: Some(description(alloc, config)?),
    })
}

/// The description of the stream.
fn description(alloc: Global, config: &AudioEncoderConfig) -> Result<Bytes, NoMemory>
    requires { IsRanged config.now }
    ensures { IfOk result (λ d. d ≡ stream_description config.now) }
{
    let mut written = [0; 42];
    write_streaminfo(&stream_of(config), &mut written);
    bytes_are_of_bits(&written);
    match Bytes::from_vec(Vec::from_slice(alloc, &written)?) {
        Ok(bytes) => Ok(bytes),
        Err(_) => Err(NoMemory),
    }
}

/// What the stream is. How large its frames become, how many samples it has and their sum are not known yet.
fn stream_of(config: &AudioEncoderConfig) -> StreamInfo
    requires { IsRanged config.now }
    ensures value { result ≡ stream_of config.now }
    ensures fields { CanBeWritten result }
{
    let frames = block_frames(config);
    StreamInfo {
        min_block: frames,
        max_block: frames,
        min_frame: 0,
        max_frame: 0,
        rate: config.rate,
        channels: config.channels,
        depth: config.depth,
        total: 0,
        md5: [0; 16],
    }
}
