//! The coders as a library for C: the laws of G.711, FLAC's descriptions, frames, streams and blocks, and copies of sound.
#![tactic(auto)]

mod blocks;
mod companding;
mod copies;
mod description;
mod frames;
mod status;
mod streams;

pub use blocks::FlacFormat;
pub use copies::{Part, Sound};
pub use description::FlacDescription;
pub use streams::FlacPlaces;
