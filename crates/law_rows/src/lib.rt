//! Worked rows of the laws by places: the definitions on whole runs, computed by the checker. Each function's contract is a
//! row.
#![tactic(auto)]

#[cfg(test)]
mod codec_laws_tests;
mod rows;

pub use rows::{
    closing_run, early_run, flushing_run, resetting_run, saturating_run, unsupported_run,
    what_is_left,
};
