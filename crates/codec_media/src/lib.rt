//! One codec with the references to media resources that it holds: each comes with the encode that brought it, and leaves
//! by the entry that lets it go.
#![tactic(auto)]

mod codec;
mod queue;
mod reply;

pub use codec::HoldingCore;
pub use reply::{Ended, Removed, Reply, Turned};
