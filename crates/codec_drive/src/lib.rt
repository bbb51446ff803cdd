//! Drives codecs: does their jobs.
#![tactic(auto)]

mod job;

pub use job::run;
