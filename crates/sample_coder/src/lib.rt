//! The coder of codecs that code each sample by itself: linear PCM, A-law and mu-law.
#![tactic(auto)]

mod coder;
mod coding;
mod decode;
mod encode;
mod units;

pub use coder::SampleCoder;
pub use coding::Coding;
