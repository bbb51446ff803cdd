//! The registry of the boxes in which coders are lent: each goes out to who asks for its id, and comes back.
#![tactic(auto)]

mod place;
mod slots;

pub use slots::{AcquireFault, Slots};
