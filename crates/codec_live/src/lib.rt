//! One codec that keeps no history (W3C WebCodecs, 'Codec Processing Model'): its queues, its coder and its jobs.
//! What its steps show is handed out by each step and kept no longer, so its memory is bounded by what is queued.
#![tactic(auto)]

mod job;
mod labels;
mod live;
mod parts;
mod step;
mod work;

pub use job::{DoneJob, Job};
pub use live::LiveCore;
pub use step::Step;
