// Who made an entry.

/// A step of a caller, both numbered from 0 in the script's order.
#[derive(Clone, Copy, Debug, PartialEq, Eq)]
pub struct Who {
    pub caller: u32,
    pub step: u32,
}

/// What let a medium or a box come or go: a caller's step, or the entry of a codec with this place.
#[derive(Clone, Copy, Debug, PartialEq, Eq)]
pub enum By {
    Caller(Who),
    Codec { codec: u32, place: u64 },
}
