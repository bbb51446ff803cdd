//! Desks of codecs from end to end: a desk is opened, threads work on it until nothing is left to
//! do, and it is finished.
#![tactic(auto)]

mod complete;
mod finishing;
mod laws;
mod opening;
mod workers;

pub use complete::complete_desk;
pub use finishing::{Finished, finish_desk};
pub use laws::runs_begin;
pub use opening::open_desk;
pub use workers::run_workers;
