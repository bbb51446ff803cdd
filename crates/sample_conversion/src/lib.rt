//! Samples in other sizes and layouts: linear PCM of one to four bytes a sample.
#![tactic(auto)]

mod copy;
mod interleave;
mod resize;
mod shape;
mod size;

pub use copy::{copy_channel, copy_frames};
pub use interleave::{interleaved, interleaved_stays, is_same, sixteen_bits_come_back};
pub use resize::{stays, widened};
pub use shape::{format_size, is_planar, is_whole};
pub use size::SampleSize;
