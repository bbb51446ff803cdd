// Reads configs.
ghost use Rattle.std.specs.Prelude.{◌≡◌, ◌≢◌, IfOk, IfErr};
ghost use Rattle.json_data.specs.View.{view};
ghost use Rattle.script_steps.specs.ConfigRead.{audio_decoder_of, audio_encoder_of, video_decoder_of, video_encoder_of, config_of};
ghost use Rattle.script_types.specs.Reading.{Gives};

use crate::members::{
    optional_hex_member, optional_object, optional_u32_member, text_value, u32_member,
    u32_member_or,
};
use crate::{Stop, Wrong};
use json_data::{Value, member};
use script_types::Kind;
use std::alloc::Global;
use wc_config::{
    AudioDecoderConfig, AudioEncoderConfig, Config, VideoDecoderConfig, VideoEncoderConfig,
};

fn read_audio_decoder(alloc: Global, value: &Value<'_>) -> Result<Config, Stop<Wrong>>
    ensures { Gives result (audio_decoder_of (view value.now)) }
{
    let codec = text_value(alloc, value, "codec")?;
    let rate = u32_member(value, "sampleRate")?;
    let channels = u32_member(value, "numberOfChannels")?;
    let description = optional_hex_member(alloc, value, "description")?;
    match (codec, rate, channels) {
        (Some(codec), Some(rate), Some(channels)) => Ok(Config::AudioDecoder(AudioDecoderConfig {
            codec,
            rate,
            channels,
            description,
        })),
        _ => Ok(Config::Bad),
    }
}

fn read_audio_encoder(alloc: Global, value: &Value<'_>) -> Result<Config, Stop<Wrong>>
    ensures { Gives result (audio_encoder_of (view value.now)) }
{
    let codec = text_value(alloc, value, "codec")?;
    let rate = u32_member(value, "sampleRate")?;
    let channels = u32_member(value, "numberOfChannels")?;
    let flac = optional_object(member(value, "flac"))?;
    let block_size = u32_member_or(flac, "blockSize", 0)?;
    let level = u32_member_or(flac, "compressLevel", 5)?;
    let depth = u32_member_or(flac, "bitsPerSample", 16)?;
    match (codec, rate, channels, block_size, level, depth) {
        (Some(codec), Some(rate), Some(channels), Some(block_size), Some(level), Some(depth)) => {
            Ok(Config::AudioEncoder(AudioEncoderConfig {
                codec,
                rate,
                channels,
                block_size,
                level,
                depth,
            }))
        }
        _ => Ok(Config::Bad),
    }
}

fn read_video_decoder(alloc: Global, value: &Value<'_>) -> Result<Config, Stop<Wrong>>
    ensures { Gives result (video_decoder_of (view value.now)) }
{
    let codec = text_value(alloc, value, "codec")?;
    let width = optional_u32_member(value, "codedWidth")?;
    let height = optional_u32_member(value, "codedHeight")?;
    let aspect_width = optional_u32_member(value, "displayAspectWidth")?;
    let aspect_height = optional_u32_member(value, "displayAspectHeight")?;
    match (codec, width, height, aspect_width, aspect_height) {
        (Some(codec), Some(width), Some(height), Some(aspect_width), Some(aspect_height)) => {
            Ok(Config::VideoDecoder(VideoDecoderConfig {
                codec,
                width,
                height,
                aspect_width,
                aspect_height,
            }))
        }
        _ => Ok(Config::Bad),
    }
}

fn read_video_encoder(alloc: Global, value: &Value<'_>) -> Result<Config, Stop<Wrong>>
    ensures { Gives result (video_encoder_of (view value.now)) }
{
    let codec = text_value(alloc, value, "codec")?;
    let width = u32_member(value, "width")?;
    let height = u32_member(value, "height")?;
    let key_interval = u32_member_or(Some(value), "keyInterval", 0)?;
    match (codec, width, height, key_interval) {
        (Some(codec), Some(width), Some(height), Some(key_interval)) => {
            Ok(Config::VideoEncoder(VideoEncoderConfig {
                codec,
                width,
                height,
                key_interval,
            }))
        }
        _ => Ok(Config::Bad),
    }
}

/// Reads the config of a codec of this kind. `Shape` where a member is of another JSON kind.
pub fn read_config(alloc: Global, kind: Kind, value: &Value<'_>) -> Result<Config, Stop<Wrong>>
    ensures { Gives result (config_of kind (view value.now)) }
{
    match kind {
        Kind::AudioDecoder => read_audio_decoder(alloc, value),
        Kind::AudioEncoder => read_audio_encoder(alloc, value),
        Kind::VideoDecoder => read_video_decoder(alloc, value),
        Kind::VideoEncoder => read_video_encoder(alloc, value),
    }
}
