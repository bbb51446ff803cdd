//! The decoder and the encoder of raw video: pictures whole, or as what is added to the last one.
#![tactic(auto)]

mod coder;
mod deltas;
mod encoder;
mod ids;
mod laws;
mod picture;

pub use coder::RawVideo;
pub use encoder::RawVideoEncoder;
pub use laws::pictures_come_back;
