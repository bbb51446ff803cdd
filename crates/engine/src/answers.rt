// What calls answer, as C reads it.
ghost use Rattle.std.specs.Prelude.{◌≡◌};
ghost use Rattle.engine.specs.Codes.{error_code, exception_code, status_of};
ghost use Rattle.engine.specs.Codes.{format_code, phase_code};
ghost use Rattle.engine.specs.Sounds.{format_with};
ghost use Rattle.engine.specs.Told.{flag};

use codec_model::CodecState;
use wc_base::{DomError, SampleFormat};

/// It is done.
pub const DONE: u32 = 0;
/// An exception, or there is no such thing.
pub const REFUSED: u32 = 1;
/// Out of memory: nothing has changed.
pub const NO_MEMORY: u32 = 2;
/// What there is to write does not fit the room.
pub const TOO_SMALL: u32 = 3;
/// An argument is out of its range.
pub const INVALID: u32 = 4;
/// Nothing is queued.
pub const IDLE: u32 = 5;
/// No such codec was opened there, or it was ended.
pub const NOT_OPEN: u32 = 6;
/// The codec had as many entries as it can have, close to 2^64.
pub const USED_UP: u32 = 7;

/// The numbers of a decoder's config; `has_description` is 0 where it has none.
#[repr(C)]
#[derive(Clone, Copy, Debug, PartialEq, Eq)]
pub struct AudioConfig {
    pub rate: u32,
    pub channels: u32,
    pub has_description: u32,
}

/// The numbers of an encoder's config: the last three are read for FLAC alone, and are the size of
/// a block in frames (0 leaves it to the encoder), the level of compression, and bits a sample.
#[repr(C)]
#[derive(Clone, Copy, Debug, PartialEq, Eq)]
pub struct EncoderNumbers {
    pub rate: u32,
    pub channels: u32,
    pub block_size: u32,
    pub level: u32,
    pub depth: u32,
}

/// Samples beside their bytes: the code of their format, frames a second, and the timestamp in
/// microseconds.
#[repr(C)]
#[derive(Clone, Copy, Debug, PartialEq, Eq)]
pub struct SamplesHead {
    pub format: u32,
    pub rate: u32,
    pub channels: u32,
    pub frames: u32,
    pub timestamp: i64,
}

/// A chunk beside its bytes: of type `key` where `key` is not 0, with a duration where
/// `has_duration` is not 0.
#[repr(C)]
#[derive(Clone, Copy, Debug, PartialEq, Eq)]
pub struct ChunkHead {
    pub key: u32,
    pub has_duration: u32,
    pub timestamp: i64,
    pub duration: u64,
}

/// The answer to a call: the code of its exception, its entry's place, which is also a flush's
/// promise, and how many promises it settled.
#[repr(C)]
#[derive(Clone, Copy, Debug, PartialEq, Eq)]
pub struct Reply {
    pub status: u32,
    pub error: u32,
    pub place: u64,
    pub settled: u64,
}

/// What a turn ran: the task, the error of one that closed the codec, how many outputs it shows
/// and how many promises it settled, and its entry's place.
#[repr(C)]
#[derive(Clone, Copy, Debug, PartialEq, Eq)]
pub struct Turn {
    pub status: u32,
    pub word: u32,
    pub error: u32,
    pub outputs: u64,
    pub settled: u64,
    pub place: u64,
}

/// An output: what its samples are, and how many bytes they have.
#[repr(C)]
#[derive(Clone, Copy, Debug, PartialEq, Eq)]
pub struct Output {
    pub status: u32,
    pub format: u32,
    pub rate: u32,
    pub channels: u32,
    pub frames: u32,
    pub timestamp: i64,
    pub size: u64,
}

/// An output of an encoder: its chunk's type, time and duration, which is 0 where it has none,
/// whether it carries a decoder config, and how many bytes the chunk has.
#[repr(C)]
#[derive(Clone, Copy, Debug, PartialEq, Eq)]
pub struct ChunkOutput {
    pub status: u32,
    pub key: u32,
    pub has_duration: u32,
    pub has_config: u32,
    pub timestamp: i64,
    pub duration: u64,
    pub size: u64,
}

/// The decoder config that an output carries, and how many bytes the part of it has that is asked
/// for.
#[repr(C)]
#[derive(Clone, Copy, Debug, PartialEq, Eq)]
pub struct ConfigOutput {
    pub status: u32,
    pub rate: u32,
    pub channels: u32,
    pub has_description: u32,
    pub size: u64,
}

/// The end of a flush's promise: resolved, or rejected with an error that is not 0.
#[repr(C)]
#[derive(Clone, Copy, Debug, PartialEq, Eq)]
pub struct Settled {
    pub status: u32,
    pub error: u32,
    pub promise: u64,
}

/// The state, the number of coded messages in the queue, and the number of entries.
#[repr(C)]
#[derive(Clone, Copy, Debug, PartialEq, Eq)]
pub struct Look {
    pub status: u32,
    pub phase: u32,
    pub size: u64,
    pub entries: u64,
}

pub(crate) fn error_code(error: DomError) -> u32
    ensures { result ≡ error_code error }
{
    match error {
        DomError::Abort => 1,
        DomError::InvalidState => 2,
        DomError::NotSupported => 3,
        DomError::Encoding => 4,
        DomError::Data => 5,
        DomError::DataClone => 6,
        DomError::QuotaExceeded => 7,
        DomError::TypeErr => 8,
        DomError::RangeErr => 9,
        DomError::OutOfMemory => 10,
    }
}

/// 0 where there is none.
pub(crate) fn exception_code(error: Option<DomError>) -> u32
    ensures { result ≡ exception_code error }
{
    match error {
        Some(error) => error_code(error),
        None => 0,
    }
}

/// A call with an exception is refused.
pub(crate) fn status_of(error: Option<DomError>) -> u32
    ensures { result ≡ status_of error }
{
    match error {
        Some(_) => REFUSED,
        None => DONE,
    }
}

pub(crate) fn phase_code(phase: CodecState) -> u32
    ensures { result ≡ phase_code phase }
{
    match phase {
        CodecState::Unconfigured => 0,
        CodecState::Configured => 1,
        CodecState::Closed => 2,
    }
}

pub(crate) fn format_code(format: SampleFormat) -> u32
    ensures { result ≡ format_code format }
{
    match format {
        SampleFormat::U8 => 0,
        SampleFormat::S16 => 1,
        SampleFormat::S32 => 2,
        SampleFormat::U8Planar => 3,
        SampleFormat::S16Planar => 4,
        SampleFormat::S32Planar => 5,
    }
}

/// The format with a code.
pub(crate) fn format_with(code: u32) -> Option<SampleFormat>
    ensures { result ≡ format_with code }
{
    if code == 0 {
        Some(SampleFormat::U8)
    } else if code == 1 {
        Some(SampleFormat::S16)
    } else if code == 2 {
        Some(SampleFormat::S32)
    } else if code == 3 {
        Some(SampleFormat::U8Planar)
    } else if code == 4 {
        Some(SampleFormat::S16Planar)
    } else if code == 5 {
        Some(SampleFormat::S32Planar)
    } else {
        None
    }
}

pub(crate) fn flag(holds: bool) -> u32
    ensures { result ≡ flag holds }
{
    if holds { 1 } else { 0 }
}
