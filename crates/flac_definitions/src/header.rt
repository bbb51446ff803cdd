// What a frame header says.

/// A frame header (RFC 9639, section 9.1): `block` frames in the block, `rate` frames a second, the channel `assignment`
/// (0 to 7: one channel more, each by itself; 8: left and side; 9: side and right; 10: mid and side), `depth` bits a
/// sample, and the coded `number` of the frame or of its first sample.
#[derive(Clone, Copy, Debug, PartialEq, Eq)]
pub struct FrameHeader {
    pub block: u32,
    pub rate: u32,
    pub assignment: u8,
    pub depth: u8,
    pub number: u64,
}

/// The codes in the first 32 bits of a frame header, as the bits spell them.
#[derive(Clone, Copy, Debug, PartialEq, Eq)]
pub struct HeaderCodes {
    pub block: u8,
    pub rate: u8,
    pub assignment: u8,
    pub depth: u8,
}
