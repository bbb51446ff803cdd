//! That the bytes of a script's file and of its chunk files, with a report, tell the run.
#![tactic(auto)]

mod laws;

pub use laws::{bytes_determine_runs, spelled_is_within};
