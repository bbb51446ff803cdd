//! The definitions of FLAC (RFC 9639): bits and places, sums, headers, residuals, subframes and frames, as they are read, as
//! they are spelled, and as an encoder writes them. They stand in `specs/`; here are the types that they speak of.
#![tactic(auto)]

mod candidate;
mod fault;
mod header;
mod mode;
mod plan;

pub use candidate::{Candidate, Choice};
pub use fault::{HeaderFault, HeaderField, ResidualFault};
pub use header::{FrameHeader, HeaderCodes};
pub use mode::{BlockChoice, BlockFormat, ChannelMode};
pub use plan::RicePlan;
