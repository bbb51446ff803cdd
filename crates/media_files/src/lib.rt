//! The chunk files that a script mentions, read in order of first mention, each within its limits.
#![tactic(auto)]

mod laws;
mod read;

pub use laws::{media_are_within, media_have_one_reading};
pub use read::{no_chunks, read_media};
