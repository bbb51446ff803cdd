// The codecs that are known.

/// A codec, by its codec string: those of the W3C registrations for linear PCM, A-law, mu-law and FLAC, and our own raw
/// pictures (`x-raw-i420` and the like).
#[derive(Clone, Copy, Debug, PartialEq, Eq)]
pub enum CodecId {
    PcmU8,
    PcmS16,
    PcmS24,
    PcmS32,
    Alaw,
    Ulaw,
    Flac,
    RawI420,
    RawI422,
    RawI444,
    RawNv12,
}

/// Which way a coder works.
#[derive(Clone, Copy, Debug, PartialEq, Eq)]
pub enum Role {
    Decode,
    Encode,
}

/// What a coder can do: one codec, one way.
#[derive(Clone, Copy, Debug, PartialEq, Eq)]
pub struct CoderId {
    pub role: Role,
    pub codec: CodecId,
}
