//! What a caller does on a desk of codecs that threads share: each of its steps is a deed, through seats of its own.
#![tactic(auto)]

mod awaits;
mod callers;
mod calls;
mod encodes;
mod lending;
mod looks;
mod media;
mod ports;
mod running;
mod steps;
mod takes;

pub use callers::caller_step;
pub use running::caller_steps;
