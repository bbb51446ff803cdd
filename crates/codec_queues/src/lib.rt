//! The queues of one codec (W3C WebCodecs, "Control Messaging Model" and "Codec Work Parallel Queue"): control messages, work
//! items, event tasks, promises and outputs, with no coder.
#![tactic(auto)]

mod labels;
mod machine;
mod queues;
mod rings;

pub use machine::Machine;
