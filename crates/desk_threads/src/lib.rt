//! Threads on one desk: seats at all its locks are split off and joined, each thread does its job through seats of its own, and
//! what all of them made together is what the codecs' histories call for.
#![tactic(auto)]

mod jobs;
mod laws;
mod parts;
mod settling;

pub use jobs::{Job, Role, join_jobs, run_job, run_jobs};
pub use laws::{accounts_are_kept, calls_are_kept, order_stands, rest_is_quiet, time_stands};
pub use parts::{join_seats, split_seats};
pub use settling::settle_desk;
