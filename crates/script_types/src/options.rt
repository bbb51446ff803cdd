// How media are copied, as scripts spell it.
use wc_base::List;

/// The format that a copy asks for (W3C WebCodecs, AudioSampleFormat).
#[derive(Clone, Copy, Debug, PartialEq, Eq)]
pub enum FormatWord {
    U8,
    S16,
    S32,
    U8Planar,
    S16Planar,
    S32Planar,
    F32,
    F32Planar,
}

/// How audio data is copied (W3C WebCodecs, AudioDataCopyToOptions): the plane, the first frame, how many frames, and
/// the format; without a count it is all frames from the first one on, and without a format the data's own.
#[derive(Clone, Copy, Debug, PartialEq, Eq)]
pub struct AudioOptions {
    pub plane: u32,
    pub offset: u32,
    pub count: Option<u32>,
    pub format: Option<FormatWord>,
}

/// A rectangle of a picture, in pixels (W3C Geometry, DOMRectInit).
#[derive(Clone, Copy, Debug, PartialEq, Eq)]
pub struct RectWords {
    pub x: u32,
    pub y: u32,
    pub width: u32,
    pub height: u32,
}

/// Where a plane lies in a destination, and how far its rows are apart, in bytes (W3C WebCodecs, PlaneLayout).
#[derive(Clone, Copy, Debug, PartialEq, Eq)]
pub struct LayoutWords {
    pub offset: u32,
    pub stride: u32,
}

/// How a frame is copied (W3C WebCodecs, VideoFrameCopyToOptions): without a rectangle the whole picture, and without a
/// layout its planes one after another.
#[derive(Debug, PartialEq, Drop)]
pub struct FrameOptions {
    pub rect: Option<RectWords>,
    pub layout: Option<List<LayoutWords>>,
}

/// The options of a copy, by the kind of what is copied. `None` where they break a rule of WebIDL: a required member is
/// missing, a number is outside its type, or a word is not of its enumeration. A chunk has none.
#[derive(Debug, PartialEq, Drop)]
pub enum Options {
    Audio(Option<AudioOptions>),
    Frame(Option<FrameOptions>),
    Nothing,
}
