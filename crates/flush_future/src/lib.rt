//! Promises of flushes, polled as the kit's futures are.
#![tactic(auto)]

mod laws;
mod polls;

pub use laws::ends_go_on;
pub use polls::poll_promise;
