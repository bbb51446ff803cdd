//! The definitions of codecs: what a list of inputs and drains gives. They stand in `specs/`; here are the types of what
//! is given to a codec and of what it gives.
#![tactic(auto)]

mod command;
mod unit;

pub use command::Command;
pub use unit::Unit;
