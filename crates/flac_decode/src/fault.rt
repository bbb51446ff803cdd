// Faults of a frame.

/// Why a frame is not decoded.
#[derive(Clone, Copy, Debug, PartialEq, Eq)]
pub enum FrameFault {
    /// The bytes are no frame of the described stream (RFC 9639, section 9), or a sample does not fit its depth (our
    /// choice).
    Refused,
    /// Memory for the samples or their bytes is wanting.
    NoMemory,
}

/// Why no frame is read in front of bytes.
#[derive(Clone, Copy, Debug, PartialEq, Eq)]
pub enum ReadFault {
    /// No frame of the described stream begins so (RFC 9639, section 9), or a sample does not fit its depth (our choice).
    Refused,
    /// The bytes end before what is read of them does: what was read so far is as in a frame.
    Short,
    /// Memory for the samples or their bytes is wanting.
    NoMemory,
}
