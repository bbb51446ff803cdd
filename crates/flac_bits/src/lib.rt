//! Bits in order, the most significant first, and the sums of FLAC (RFC 9639).
#![tactic(auto)]

mod parts_16;
mod parts_8;
mod reader;
mod sums;
mod tables_16;
mod tables_8;
mod window;

pub use reader::{BitReader, End, number_at, word_at, zeros_from};
pub use sums::{crc8, crc16};
pub use window::{Window, fill_up, window_at};
