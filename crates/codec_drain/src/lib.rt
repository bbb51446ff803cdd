//! A codec that does all that is left to it, on one thread.
#![tactic(auto)]

mod boxes;
mod draining;
mod ending;

pub use draining::drain;
