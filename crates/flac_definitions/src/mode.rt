// Formats of blocks, and ways to code their channels.
use crate::candidate::Choice;

/// What the blocks of a stream have in common: `rate` frames a second, 1 to 8 `channels`, `depth` bits a sample (8, 16,
/// 24 or 32), and the `level` at which they are coded, 0 to 8: how many candidates are tried.
#[derive(Clone, Copy, Debug, PartialEq, Eq)]
pub struct BlockFormat {
    pub rate: u32,
    pub channels: u8,
    pub depth: u8,
    pub level: u8,
}

/// How the channels of a block are coded (RFC 9639, section 4.2): each by itself, or two with their difference in place
/// of one of them, or with their middle and their difference.
#[derive(Clone, Copy, Debug, PartialEq, Eq)]
pub enum ChannelMode {
    Independent,
    LeftSide,
    SideRight,
    MidSide,
}

/// A mode for a block, the `coded` channels one after another, and a choice for the subframe of each.
#[derive(Drop)]
pub struct BlockChoice {
    pub mode: ChannelMode,
    pub coded: Vec<i32>,
    pub choices: Vec<Choice>,
}
