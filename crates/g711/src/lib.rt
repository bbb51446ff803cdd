//! A-law and mu-law (ITU-T G.711): codes and samples.
#![tactic(auto)]

mod alaw;
mod law;
mod laws;
mod segment;
mod tables;
mod ulaw;

pub use alaw::{alaw_decode, alaw_encode};
pub use law::{Law, decode, encode};
pub use laws::{alaw_codes, ulaw_codes};
pub use ulaw::{ulaw_decode, ulaw_encode};
