// Which configs are valid and supported (W3C WebCodecs, "valid AudioDecoderConfig" and the like), and what they ask for.
ghost use Rattle.std.specs.Prelude.{◌≡◌};
ghost use Rattle.wc_config.specs.Configs.{audio_codec, video_codec, coder_id_of, is_valid, is_within, is_flac, has_streaminfo, is_supported, is_blank, is_pair, is_size};

use crate::codec::{CodecId, CoderId, Role};
use crate::config::{AudioEncoderConfig, Config, VideoDecoderConfig};
use crate::stream_info::read_streaminfo;
use bytes::Bytes;

impl Config {
    /// Whether the config keeps the rules of its standard: a codec string that is not blank, rates, channels and sizes
    /// above 0, sizes in pairs, and the options of an encoder in their ranges.
    pub fn is_valid(&self) -> bool
        ensures { result ≡ is_valid self.now }
    {
        match self {
            Config::AudioDecoder(c) => !is_blank(c.codec.as_str())
                && c.rate >= 1
                && c.channels >= 1,
            Config::AudioEncoder(c) => is_valid_encoder(c),
            Config::VideoDecoder(c) => is_valid_video(c),
            Config::VideoEncoder(c) => !is_blank(c.codec.as_str()) && c.width >= 1 && c.height >= 1,
            Config::Bad => false,
        }
    }

    /// The coder that the config asks for; none where its codec string is not known, byte for byte.
    pub fn coder_id(&self) -> Option<CoderId>
        ensures { result ≡ coder_id_of self.now }
    {
        let (role, codec) = match self {
            Config::AudioDecoder(c) => (Role::Decode, audio_codec(c.codec.as_str())),
            Config::AudioEncoder(c) => (Role::Encode, audio_codec(c.codec.as_str())),
            Config::VideoDecoder(c) => (Role::Decode, video_codec(c.codec.as_str())),
            Config::VideoEncoder(c) => (Role::Encode, video_codec(c.codec.as_str())),
            Config::Bad => (Role::Decode, None),
        };
        Some(CoderId {
            role,
            codec: codec?,
        })
    }

    /// Whether the config is valid, its codec is known, and that codec's coder can work with it.
    pub fn supported(&self) -> bool
        ensures { result ≡ is_supported self.now }
    {
        self.is_valid() && self.coder_id().is_some() && is_within(self)
    }
}

fn is_valid_encoder(c: &AudioEncoderConfig) -> bool
    ensures { result ≡ is_valid (Config.AudioEncoder c.now) }
{
    !is_blank(c.codec.as_str())
        && c.rate >= 1
        && c.channels >= 1
        && (c.block_size == 0 || (c.block_size >= 16 && c.block_size <= 65535))
        && c.level <= 8
        && (c.depth == 8 || c.depth == 16 || c.depth == 24 || c.depth == 32)
}

fn is_valid_video(c: &VideoDecoderConfig) -> bool
    ensures { result ≡ is_valid (Config.VideoDecoder c.now) }
{
    !is_blank(c.codec.as_str())
        && is_pair(c.width, c.height)
        && is_pair(c.aspect_width, c.aspect_height)
}

/// Whether nothing is left where ASCII whitespace is stripped.
fn is_blank(text: &str) -> bool
    ensures { result ≡ is_blank text.now }
{
    text.as_bytes().iter().all(|b| *b == 9 || *b == 10 || *b == 12 || *b == 13 || *b == 32)
}

/// Whether both are there and above 0, or neither is there.
fn is_pair(width: Option<u32>, height: Option<u32>) -> bool
    ensures { result ≡ is_pair width height }
{
    match (width, height) {
        (None, None) => true,
        (Some(width), Some(height)) => width >= 1 && height >= 1,
        _ => false,
    }
}

fn audio_codec(text: &str) -> Option<CodecId>
    ensures { result ≡ audio_codec text.now }
{
    match text {
        "pcm-u8" => Some(CodecId::PcmU8),
        "pcm-s16" => Some(CodecId::PcmS16),
        "pcm-s24" => Some(CodecId::PcmS24),
        "pcm-s32" => Some(CodecId::PcmS32),
        "alaw" => Some(CodecId::Alaw),
        "ulaw" => Some(CodecId::Ulaw),
        "flac" => Some(CodecId::Flac),
        _ => None,
    }
}

fn video_codec(text: &str) -> Option<CodecId>
    ensures { result ≡ video_codec text.now }
{
    match text {
        "x-raw-i420" => Some(CodecId::RawI420),
        "x-raw-i422" => Some(CodecId::RawI422),
        "x-raw-i444" => Some(CodecId::RawI444),
        "x-raw-nv12" => Some(CodecId::RawNv12),
        _ => None,
    }
}

/// Whether the config's coder can work with it, be it valid or not.
fn is_within(config: &Config) -> bool
    ensures { result ≡ is_within config.now }
{
    match config {
        Config::AudioDecoder(c) => {
            if is_flac(audio_codec(c.codec.as_str())) {
                has_streaminfo(&c.description)
            } else {
                c.channels <= 32
            }
        }
        Config::AudioEncoder(c) => {
            if is_flac(audio_codec(c.codec.as_str())) {
                c.channels <= 8 && c.rate <= 1_048_575
            } else {
                c.channels <= 32
            }
        }
        Config::VideoDecoder(c) => is_size(c.width) && is_size(c.height),
        Config::VideoEncoder(c) => c.width <= 16384 && c.height <= 16384,
        Config::Bad => false,
    }
}

fn is_flac(codec: Option<CodecId>) -> bool
    ensures { result ≡ is_flac codec }
{
    matches!(codec, Some(CodecId::Flac))
}

fn is_size(size: Option<u32>) -> bool
    ensures { result ≡ is_size size }
{
    match size {
        None => false,
        Some(n) => n <= 16384,
    }
}

fn has_streaminfo(description: &Option<Bytes>) -> bool
    ensures { result ≡ has_streaminfo description.now }
{
    match description {
        None => false,
        Some(bytes) => read_streaminfo(bytes.as_slice()).is_some(),
    }
}
