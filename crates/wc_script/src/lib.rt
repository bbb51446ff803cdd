//! Scripts: what codecs there are, what callers do, and in what order, read from JSON.
#![tactic(auto)]

mod callers;
mod codecs;
mod faults;
mod laws;
mod order;
mod ports;
mod read;
mod walk;

pub use laws::{scripts_are_sound, scripts_are_within};
pub use read::read_script;
pub use script_types::{Counted, Fault, Place, Script, ScriptData, Stop, Wrong};
