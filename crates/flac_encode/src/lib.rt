//! The encoder of FLAC: samples in any pieces, coded block by block (RFC 9639).
#![tactic(auto)]

mod block;
mod coder;
mod description;
mod encoder;
mod values;

pub use coder::FlacEncoder;
