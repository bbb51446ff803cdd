//! The law of FLAC blocks that are written: what is written spells the samples, and is read (RFC 9639, section 9).
#![tactic(auto)]

mod laws;

pub use laws::written_frames_are_read;
