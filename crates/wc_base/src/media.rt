// Formats and shapes of samples and pictures.
use bytes::Bytes;

/// How samples are stored (W3C WebCodecs, AudioSampleFormat, the integer formats): unsigned bytes with their middle at
/// 128, or signed little-endian numbers of 16 or 32 bits; frame by frame, or channel by channel (planar).
#[derive(Clone, Copy, Debug, PartialEq, Eq)]
pub enum SampleFormat {
    U8,
    S16,
    S32,
    U8Planar,
    S16Planar,
    S32Planar,
}

/// How a picture's planes are stored (W3C WebCodecs, VideoPixelFormat).
#[derive(Clone, Copy, Debug, PartialEq, Eq)]
pub enum PictureFormat {
    I420,
    I422,
    I444,
    Nv12,
}

/// What samples are: `rate` in frames a second, `frames` samples in each of `channels`, and the `timestamp` in
/// microseconds.
#[derive(Clone, Copy, Debug, PartialEq, Eq)]
pub struct SoundShape {
    pub format: SampleFormat,
    pub rate: u32,
    pub channels: u32,
    pub frames: u32,
    pub timestamp: i64,
}

/// What a picture is: its coded size in pixels, and `timestamp` and `duration` in microseconds.
#[derive(Clone, Copy, Debug, PartialEq, Eq)]
pub struct PictureShape {
    pub format: PictureFormat,
    pub width: u32,
    pub height: u32,
    pub timestamp: i64,
    pub duration: Option<u64>,
}

/// Samples with their shape: as many bytes as the shape needs.
#[derive(Debug, PartialEq, Drop)]
pub struct Samples {
    pub shape: SoundShape,
    pub bytes: Bytes,
}

/// A picture with its shape: as many bytes as the shape needs, plane after plane.
#[derive(Debug, PartialEq, Drop)]
pub struct Picture {
    pub shape: PictureShape,
    pub bytes: Bytes,
}
