// What a step of a caller came to.
ghost use Rattle.std.specs.Prelude.{◌≡◌, IfOk};

use bytes::Bytes;
use codec_model::{CodecState, PromiseState};
use wc_base::{DomError, NoMemory, Who};
use wc_video::Layouts;

/// What a step of a caller came to.
#[derive(Debug, PartialEq, Drop)]
pub enum StepResult {
    /// A call on a codec: its entry's place, and its exception, if it has one.
    Call {
        codec: u32,
        place: u64,
        error: Option<DomError>,
    },
    /// A step that calls no codec, and its exception, if it has one.
    Local {
        error: Option<DomError>,
    },
    /// A look at a promise, after so many entries of its codec.
    Look {
        codec: u32,
        length: u64,
        end: PromiseState,
    },
    /// A look at a codec's state and the number of its queued chunks, after so many entries.
    State {
        codec: u32,
        length: u64,
        state: CodecState,
        size: u64,
    },
    /// A take that found an output: its entry's place, and the output's number.
    Unit {
        codec: u32,
        place: u64,
        number: u64,
    },
    /// A take that found none, after so many entries of its codec.
    NoUnit {
        codec: u32,
        length: u64,
    },
    /// A copy of audio data or of a chunk: how many bytes were written, and the whole destination.
    Copied {
        count: u64,
        bytes: Bytes,
    },
    /// A copy of a video frame: how many bytes it needs, where its planes went, and the whole destination.
    CopiedFrame {
        count: u64,
        layouts: Layouts,
        bytes: Bytes,
    },
    /// How many bytes a copy needs.
    Size {
        size: u64,
    },
    /// A receive from a port got the medium that this step posted.
    From {
        who: Who,
    },
    /// A receive from a port found nothing.
    Nothing,
    /// The step's variable is absent: nothing was called.
    Absent,
}

impl StepResult {
    /// The same result. The destination of a copy is shared.
    pub fn copy(&self) -> Result<StepResult, NoMemory>
        ensures { IfOk result (λ r. r ≡ self.now) }
    {
        Ok(match *self {
            StepResult::Call {
                codec,
                place,
                error,
            } => called(codec, place, error),
            StepResult::Local { error } => StepResult::Local { error },
            StepResult::Look { codec, length, end } => StepResult::Look { codec, length, end },
            StepResult::State {
                codec,
                length,
                state,
                size,
            } => seen(codec, length, state, size),
            StepResult::Unit {
                codec,
                place,
                number,
            } => taken(codec, place, number),
            StepResult::NoUnit { codec, length } => StepResult::NoUnit { codec, length },
            StepResult::Copied { count, ref bytes } => StepResult::Copied {
                count,
                bytes: bytes.clone()?,
            },
            StepResult::CopiedFrame {
                count,
                layouts,
                ref bytes,
            } => StepResult::CopiedFrame {
                count,
                layouts,
                bytes: bytes.clone()?,
            },
            StepResult::Size { size } => StepResult::Size { size },
            StepResult::From { who } => StepResult::From { who },
            StepResult::Nothing => StepResult::Nothing,
            StepResult::Absent => StepResult::Absent,
        })
    }
}

fn called(codec: u32, place: u64, error: Option<DomError>) -> StepResult
    ensures { result ≡ StepResult.Call codec place error }
{
    StepResult::Call {
        codec,
        place,
        error,
    }
}

fn seen(codec: u32, length: u64, state: CodecState, size: u64) -> StepResult
    ensures { result ≡ StepResult.State codec length state size }
{
    StepResult::State {
        codec,
        length,
        state,
        size,
    }
}

fn taken(codec: u32, place: u64, number: u64) -> StepResult
    ensures { result ≡ StepResult.Unit codec place number }
{
    StepResult::Unit {
        codec,
        place,
        number,
    }
}
