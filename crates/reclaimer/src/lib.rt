//! Which of the codecs that hold a coder is reclaimed, so that another codec gets it.
#![tactic(auto)]

mod choice;
mod holder;

pub use choice::pick;
pub use holder::Holder;
