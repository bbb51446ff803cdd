//! Encoded chunks of audio and video.
#![tactic(auto)]

mod chunk;

pub use chunk::Chunk;
