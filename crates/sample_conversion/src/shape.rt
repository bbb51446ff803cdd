// Where the samples of data stand.
ghost use Rattle.std.specs.Prelude.{◌≡◌, ◌≤◌, true};
ghost use Rattle.codec_definitions.specs.Pcm.{format_size, is_planar, is_whole};
ghost use Rattle.sample_conversion.specs.Sizes.{is_format_size};

use wc_base::{SampleFormat, SoundShape};

/// Bytes a sample of a format: 1, 2 or 4.
pub fn format_size(format: SampleFormat) -> usize
    ensures value { result ≡ format_size format }
    ensures size { is_format_size result ≡ true }
{
    match format {
        SampleFormat::U8 | SampleFormat::U8Planar => 1,
        SampleFormat::S16 | SampleFormat::S16Planar => 2,
        SampleFormat::S32 | SampleFormat::S32Planar => 4,
    }
}

/// Whether a format has its samples channel by channel, and not frame by frame.
pub fn is_planar(format: SampleFormat) -> bool
    ensures { result ≡ is_planar format }
{
    match format {
        SampleFormat::U8Planar | SampleFormat::S16Planar | SampleFormat::S32Planar => true,
        SampleFormat::U8 | SampleFormat::S16 | SampleFormat::S32 => false,
    }
}

/// Whether data of at most 32 channels holds as many bytes as its shape needs.
pub fn is_whole(shape: &SoundShape, bytes: &[u8]) -> bool
    requires { shape.now.channels ≤ 32 }
    ensures { result ≡ is_whole shape.now bytes.now }
{
    let samples = shape.frames as usize * shape.channels as usize;
    bytes.len() == samples * format_size(shape.format)
}
