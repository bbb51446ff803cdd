//! One codec (W3C WebCodecs): its history, the coder that it holds, and its jobs.
#![tactic(auto)]

mod codec;
mod job;
mod labels;
mod out;
mod parts;
mod reply;
mod trace;
mod work;

pub use codec::Core;
pub use job::{DoneJob, Job};
pub use out::{BoxName, Out};
pub use reply::{Back, Removed, Reply, Turned};
