//! The script of a load, drawn from a number, and the words that spell a load.
#![tactic(auto)]

mod callers;
mod chunks;
mod draws;
mod script;
mod words;

pub use draws::Draws;
pub use script::load_script;
pub use words::{Load, load_of};
