// The entries of a codec's history, and what its queues hold.
use bytes::Bytes;
use coder_api::Unit;
use wc_base::{DomError, Ground, List, PictureShape, SoundShape, Who};
use wc_chunk::Chunk;
use wc_config::{Config, Kind};

/// How a codec is opened: what it is, and how many coded items may be at work before it is saturated (1 to 64).
#[derive(Clone, Copy, Debug, PartialEq, Eq)]
pub struct Opening {
    pub kind: Kind,
    pub saturation: u32,
}

/// How an item that was at work ended, as its entry tells it.
#[derive(Clone, Copy, Debug, PartialEq, Eq)]
pub enum Outcome {
    /// It succeeded and gave so many units.
    Ran { units: u64 },
    /// The config is not supported, or the codec's definition refuses the input.
    Refused,
    /// No coder was free, by this entry of the registry.
    NoSlot { entry: u64 },
    /// Memory was wanted.
    NoMemory,
}

/// A reference to a media resource, by the numbers that its pool gave.
#[derive(Clone, Copy, Debug, PartialEq, Eq)]
pub struct Pair {
    pub resource: u64,
    pub reference: u64,
}

/// What a medium is: samples, or a picture.
#[derive(Clone, Copy, Debug, PartialEq, Eq)]
pub enum MediaShape {
    Sound(SoundShape),
    Image(PictureShape),
}

/// A medium, with as many bytes as its shape needs, and no reference to it.
#[derive(Debug, PartialEq, Drop)]
pub struct Content {
    pub shape: MediaShape,
    pub bytes: Bytes,
}

/// A medium that a codec was given, with as many bytes as its shape needs, and the reference that the codec holds to it.
#[derive(Debug, PartialEq, Drop)]
pub struct HeldMedium {
    pub shape: MediaShape,
    pub bytes: Bytes,
    pub pair: Pair,
}

/// What became of the medium of an `encode`.
#[derive(Debug, PartialEq, Drop)]
pub enum Handed {
    /// It was detached.
    Gone,
    /// The codec was not configured, and made no clone.
    Kept,
    /// The codec made a clone of it.
    Cloned(HeldMedium),
}

/// What a caller asks of a codec.
#[derive(Debug, PartialEq, Drop)]
pub enum Call {
    Configure(Config),
    Decode(Chunk),
    Encode(Handed),
    /// Its promise has the place of its entry as its name.
    Flush,
    Reset,
    Close,
    /// The caller takes the first output that was shown and not taken yet, of this number. Outputs are numbered from 0 as
    /// they are shown.
    Take(u64),
    /// The codec is at work there from now on.
    Ground(Ground),
}

/// One event of a codec.
#[derive(Debug, PartialEq, Drop)]
pub enum Entry {
    /// A caller's call.
    Call {
        who: Who,
        call: Call,
    },
    /// The front item of the work queue began.
    Start {
        epoch: u64,
        item: u64,
    },
    /// The item at work ended at a moment in microseconds.
    Done {
        epoch: u64,
        item: u64,
        moment: u64,
        outcome: Outcome,
    },
    /// The front event task ran.
    Turn,
    /// The codec was reclaimed at a moment in microseconds.
    Reclaim {
        moment: u64,
    },
}

/// The state of a codec (W3C WebCodecs, CodecState).
#[derive(Clone, Copy, Debug, PartialEq, Eq)]
pub enum CodecState {
    Unconfigured,
    Configured,
    Closed,
}

/// An input of a coder: a chunk that is decoded, or a medium that is encoded.
#[derive(Debug, PartialEq, Drop)]
pub enum Coded {
    Chunk(Chunk),
    Medium(HeldMedium),
}

/// What a control message or a work item asks for.
#[derive(Debug, PartialEq, Drop)]
pub enum Work {
    Configure(Config),
    Coded(Coded),
    Flush,
}

/// The kind of a work item.
#[derive(Clone, Copy, Debug, PartialEq, Eq)]
pub enum WorkKind {
    Configure,
    Coded,
    Flush,
}

/// A control message, with the place of its call.
#[derive(Debug, PartialEq, Drop)]
pub struct Message {
    pub place: u64,
    pub work: Work,
}

/// A work item of the current epoch, numbered from 0 in its epoch, with the place of its call.
#[derive(Debug, PartialEq, Drop)]
pub struct Item {
    pub number: u64,
    pub place: u64,
    pub work: Work,
}

/// The item that is at work.
#[derive(Clone, Copy, Debug, PartialEq, Eq)]
pub struct Running {
    pub epoch: u64,
    pub number: u64,
    pub place: u64,
    pub kind: WorkKind,
}

/// An event task that is queued.
#[derive(Debug, PartialEq, Drop)]
pub enum Task {
    /// The configuration is done: messages may be processed again.
    Unblock,
    Process,
    /// The codec works on fewer items than it can.
    Desaturate,
    /// These outputs are delivered.
    Output(List<Unit>),
    /// These outputs are delivered, and then the promise is resolved.
    Flushed { promise: u64, units: List<Unit> },
    /// The event `dequeue` is fired.
    Dequeue,
    /// The codec closes with an error.
    Close(DomError),
}

/// How an item ended, with what it gave.
#[derive(Debug, PartialEq, Drop)]
pub enum Ended {
    Ran(List<Unit>),
    Refused,
    NoSlot(u64),
    NoMemory,
}

/// The end of a flush promise: resolved, or rejected with an error.
#[derive(Clone, Copy, Debug, PartialEq, Eq)]
pub struct PromiseEnd {
    pub promise: u64,
    pub error: Option<DomError>,
}

/// How a flush promise stands.
#[derive(Clone, Copy, Debug, PartialEq, Eq)]
pub enum PromiseState {
    Pending,
    Resolved,
    Rejected(DomError),
}

/// Which event task a turn ran.
#[derive(Clone, Copy, Debug, PartialEq, Eq)]
pub enum TurnWord {
    Unblock,
    Process,
    Desaturate,
    Output,
    Flushed,
    Dequeue,
    Close(DomError),
}

/// What an entry shows.
#[derive(Debug, PartialEq, Drop)]
pub enum Event {
    /// The exception with which a call was refused.
    Refusal(DomError),
    /// An output; those of a codec are numbered from 0 as they are shown.
    Output { number: u64, unit: Unit },
    /// A flush promise, by the place of its call, was resolved.
    Resolve(u64),
    /// A flush promise, by the place of its call, was rejected.
    Reject { promise: u64, error: DomError },
    /// The event `dequeue` was fired.
    Dequeue,
    /// The error callback was called.
    ErrorCall(DomError),
}

/// An entry's turn, if it is one, and all that it shows, in order.
#[derive(Debug, PartialEq, Drop)]
pub struct Shown {
    pub turn: Option<TurnWord>,
    pub events: List<Event>,
}

/// What an entry shows, as it is kept: it takes no memory, since what a task delivered and the promises that were pending
/// move into it. `Showing::into_shown` gives the events.
#[derive(Debug, Drop)]
pub enum Showing {
    /// Nothing, and no turn.
    Nothing,
    /// The exception with which a call was refused.
    Refusal(DomError),
    /// The promise of a flush that was refused, rejected at once.
    Rejection {
        promise: u64,
        error: DomError,
    },
    /// A reset or close, with the promises that it rejected.
    Removal(List<u64>),
    /// A reclaim, with the promises that it rejected.
    Reclaim(List<u64>),
    /// The turn of a task that does not close the codec, after so many outputs.
    Turn {
        task: Task,
        outputs: u128,
    },
    /// The turn that closed the codec with an error, with the promises that it rejected.
    Close {
        error: DomError,
        promises: List<u64>,
    },
}

/// What a step of a codec came to: the place of its entry, the exception with which it was refused, if it was, and what it
/// shows.
#[derive(Debug, Drop)]
pub struct Answer {
    pub place: u64,
    pub exception: Option<DomError>,
    pub showing: Showing,
}
