// What a copy of audio data is asked for.
use wc_base::SampleFormat;

/// The format that a copy asks for (W3C WebCodecs, AudioSampleFormat).
#[derive(Clone, Copy, Debug, PartialEq, Eq)]
pub enum CopyFormat {
    U8,
    S16,
    S32,
    U8Planar,
    S16Planar,
    S32Planar,
    F32,
    F32Planar,
}

/// How audio data is copied (W3C WebCodecs, AudioDataCopyToOptions): the plane, the first frame and how
/// many frames, both counted in frames, and the format. Without a count it is all frames from the first
/// one on, and without a format the data's own. Interleaved formats have the plane 0 alone.
#[derive(Clone, Copy, Debug, PartialEq, Eq)]
pub struct CopyOptions {
    pub plane: u32,
    pub offset: u32,
    pub count: Option<u32>,
    pub format: Option<CopyFormat>,
}

/// What is copied, in a format: `count` frames from `offset` on, of one plane or of all channels.
#[derive(Clone, Copy, Debug, PartialEq, Eq)]
pub struct Plan {
    pub format: SampleFormat,
    pub plane: u32,
    pub offset: u32,
    pub count: u32,
}
