// What stands on one line.
use crate::result::StepResult;
use bytes::Bytes;
use codec_model::{Opening, Outcome, TurnWord};
use coder_api::SlotEntry;
use wc_base::{DomError, Ground, Picture, Samples, Who};
use wc_chunk::Chunk;
use wc_pool::PoolEntry;

/// Which call an entry keeps.
#[derive(Clone, Copy, Debug, PartialEq, Eq)]
pub enum CallWord {
    Configure,
    Decode,
    Encode,
    Flush,
    Reset,
    Close,
}

/// What stands on an entry's line behind its place: a call with its exception but not its arguments, a take with the number
/// of the output, a ground with its word, a turn with the task that it ran.
#[derive(Clone, Copy, Debug, PartialEq, Eq)]
pub enum EntryLine {
    Call {
        who: Who,
        call: CallWord,
        error: Option<DomError>,
    },
    Take {
        who: Who,
        unit: u64,
    },
    Ground {
        who: Who,
        to: Ground,
    },
    Start {
        epoch: u64,
        item: u64,
    },
    Done {
        epoch: u64,
        item: u64,
        moment: u64,
        outcome: Outcome,
    },
    Turn(Option<TurnWord>),
    Reclaim {
        moment: u64,
    },
}

/// A line of what an entry showed. A config's codec string stands on it as bytes, and a description of no bytes is none.
#[derive(Debug, PartialEq, Drop)]
pub enum EventLine {
    Sound(Samples),
    Image(Picture),
    Chunk(Chunk),
    Config {
        codec: Bytes,
        rate: u32,
        channels: u32,
        description: Bytes,
    },
    Resolve(u64),
    Reject {
        promise: u64,
        error: DomError,
    },
    Dequeue,
    Error(DomError),
}

/// One line of a report. Callers and codecs are named by their numbers in the script. The bytes of outputs are shared with
/// those that stand on the line.
#[derive(Debug, PartialEq, Drop)]
pub enum Line {
    /// The first line.
    Header,
    /// Begins the results of the caller with this number.
    Caller(u64),
    /// What a caller's step with this number came to.
    Result { step: u64, answer: StepResult },
    /// Begins the entries of the codec with this number.
    Codec { codec: u64, opening: Opening },
    /// An entry of a codec, with its place.
    Entry { place: u64, entry: EntryLine },
    /// What the entry before it showed.
    Event(EventLine),
    /// Begins the entries of the pool of media.
    Pool,
    /// An entry of the pool of media, with its place.
    Reference { place: u64, entry: PoolEntry },
    /// Begins the entries of the registry of coders.
    Slots,
    /// An entry of the registry of coders, with its place.
    Slot { place: u64, entry: SlotEntry },
    /// How many media resources are still held.
    Held(u64),
    /// The last line.
    End,
}
