// Exceptions and faults.
use std::alloc::AllocError;

/// An exception of W3C WebCodecs and WebIDL: why a call was refused, a promise was rejected or a codec was closed.
#[derive(Clone, Copy, Debug, PartialEq, Eq)]
pub enum DomError {
    /// `AbortError`: a reset or close ended the work.
    Abort,
    /// `InvalidStateError`: the codec or the medium is in a state without this call.
    InvalidState,
    /// `NotSupportedError`: the config or the format is not supported.
    NotSupported,
    /// `EncodingError`: the codec's definition refuses the input.
    Encoding,
    /// `DataError`: a key chunk was required.
    Data,
    /// `DataCloneError`: a detached medium cannot be transferred.
    DataClone,
    /// `QuotaExceededError`: the codec was reclaimed, or no coder was free.
    QuotaExceeded,
    /// `TypeError`: an argument breaks a rule of WebIDL or of its dictionary.
    TypeErr,
    /// `RangeError`: an option points outside the medium.
    RangeErr,
    /// Want of memory closed the codec (our choice; no call is refused with it).
    OutOfMemory,
}

/// Want of memory.
#[derive(Clone, Copy, Debug, PartialEq, Eq)]
pub struct NoMemory;

impl From<AllocError> for NoMemory {
    fn from(_error: AllocError) -> NoMemory {
        NoMemory
    }
}

/// A sink did not take what was written.
#[derive(Clone, Copy, Debug, PartialEq, Eq)]
pub struct Failed;
