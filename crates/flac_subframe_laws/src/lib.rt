//! The law of FLAC subframes that are written: what is written spells the samples, and is read (RFC 9639, section 9.2).
#![tactic(auto)]

mod laws;

pub use laws::written_subframes_are_read;
