//! The report of a run, written.
#![tactic(auto)]

mod lines;
mod numbered;
mod report;

pub use lines::{RunLines, Section};
pub use report::{WriteFault, write_report};
