//! Blocks of FLAC: the first mode of least length, and whole frames, written (RFC 9639, section 9).
#![tactic(auto)]

mod choice;
mod frame;
mod pair;
mod sound;

pub use choice::best_block;
pub use flac_definitions::{BlockChoice, BlockFormat, ChannelMode};
pub use frame::encode_block;
pub use sound::{have_depth, is_block, is_format};
