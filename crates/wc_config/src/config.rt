// Configurations (W3C WebCodecs, AudioDecoderConfig, AudioEncoderConfig, VideoDecoderConfig, VideoEncoderConfig).
ghost use Rattle.std.specs.Prelude.{◌≡◌, IfOk};

use bytes::Bytes;
use wc_base::{NoMemory, Text};

/// The config of an audio decoder: `rate` in frames a second.
#[derive(Debug, PartialEq, Drop)]
pub struct AudioDecoderConfig {
    pub codec: Text,
    pub rate: u32,
    pub channels: u32,
    pub description: Option<Bytes>,
}

/// The config of an audio encoder. The last three are read by a FLAC encoder alone: `block_size` in frames (0 leaves it
/// to the encoder), `level` the compression level, and `depth` in bits a sample (our choice).
#[derive(Debug, PartialEq, Drop)]
pub struct AudioEncoderConfig {
    pub codec: Text,
    pub rate: u32,
    pub channels: u32,
    pub block_size: u32,
    pub level: u32,
    pub depth: u32,
}

/// The config of a video decoder, sizes in pixels.
#[derive(Debug, PartialEq, Drop)]
pub struct VideoDecoderConfig {
    pub codec: Text,
    pub width: Option<u32>,
    pub height: Option<u32>,
    pub aspect_width: Option<u32>,
    pub aspect_height: Option<u32>,
}

/// The config of a video encoder, sizes in pixels. `key_interval` is in frames (our choice): of the frames since the last
/// flush, the first is a key frame, and every so many after it. With 0 the first alone is.
#[derive(Debug, PartialEq, Drop)]
pub struct VideoEncoderConfig {
    pub codec: Text,
    pub width: u32,
    pub height: u32,
    pub key_interval: u32,
}

/// A config as a caller gave it. `Bad` is one that breaks a rule of WebIDL: a required member is missing, or a number
/// is outside its type.
#[derive(Debug, PartialEq, Drop)]
pub enum Config {
    AudioDecoder(AudioDecoderConfig),
    AudioEncoder(AudioEncoderConfig),
    VideoDecoder(VideoDecoderConfig),
    VideoEncoder(VideoEncoderConfig),
    Bad,
}

impl AudioDecoderConfig {
    /// The same config again.
    pub fn copy(&self) -> Result<AudioDecoderConfig, NoMemory>
        ensures { IfOk result (λ c. c ≡ self.now) }
    {
        let codec = self.codec.copy()?;
        let description = self.description.clone()?;
        Ok(AudioDecoderConfig {
            codec,
            rate: self.rate,
            channels: self.channels,
            description,
        })
    }
}

impl AudioEncoderConfig {
    /// The same config again.
    pub fn copy(&self) -> Result<AudioEncoderConfig, NoMemory>
        ensures { IfOk result (λ c. c ≡ self.now) }
    {
        Ok(AudioEncoderConfig {
            codec: self.codec.copy()?,
            rate: self.rate,
            channels: self.channels,
            block_size: self.block_size,
            level: self.level,
            depth: self.depth,
        })
    }
}

impl VideoDecoderConfig {
    /// The same config again.
    pub fn copy(&self) -> Result<VideoDecoderConfig, NoMemory>
        ensures { IfOk result (λ c. c ≡ self.now) }
    {
        Ok(VideoDecoderConfig {
            codec: self.codec.copy()?,
            width: self.width,
            height: self.height,
            aspect_width: self.aspect_width,
            aspect_height: self.aspect_height,
        })
    }
}

impl VideoEncoderConfig {
    /// The same config again.
    pub fn copy(&self) -> Result<VideoEncoderConfig, NoMemory>
        ensures { IfOk result (λ c. c ≡ self.now) }
    {
        Ok(VideoEncoderConfig {
            codec: self.codec.copy()?,
            width: self.width,
            height: self.height,
            key_interval: self.key_interval,
        })
    }
}

impl Config {
    /// The same config again.
    pub fn copy(&self) -> Result<Config, NoMemory>
        ensures { IfOk result (λ c. c ≡ self.now) }
    {
        match self {
            Config::AudioDecoder(c) => Ok(Config::AudioDecoder(c.copy()?)),
            Config::AudioEncoder(c) => Ok(Config::AudioEncoder(c.copy()?)),
            Config::VideoDecoder(c) => Ok(Config::VideoDecoder(c.copy()?)),
            Config::VideoEncoder(c) => Ok(Config::VideoEncoder(c.copy()?)),
            Config::Bad => Ok(Config::Bad),
        }
    }
}
