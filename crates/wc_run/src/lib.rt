//! Runs a script with threads: each caller, each worker and one turner has its own.
#![tactic(auto)]

mod jobs;
mod joining;
mod laws;
mod making;
mod openings;
mod ports;
mod running;
mod threads;
mod traces;

pub use jobs::{Job, Role};
pub use laws::made_fits;
pub use running::run;
