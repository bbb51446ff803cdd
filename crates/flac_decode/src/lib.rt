//! The decoder of FLAC, and what it is made of: frames, decoded (RFC 9639, section 9).
#![tactic(auto)]

mod chunk;
mod coder;
mod end;
mod fault;
mod fields;
mod frame;
mod output;
mod prediction;
mod predictor;
mod stereo;
mod subframe;

pub use coder::FlacDecoder;
pub use end::{FrontFrame, decode_front, frame_end, frames_are_found, front_frame};
pub use fault::{FrameFault, ReadFault};
pub use frame::decode_frame;
