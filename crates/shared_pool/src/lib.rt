//! A pool of media resources behind a lock: threads make, clone and end references to shared resources, each through a
//! seat of its own, and what the seats made adds up to the pool's history.
#![tactic(auto)]

mod at;
mod laws;
mod pool;
mod refs;

pub use at::PoolAt;
pub use laws::live_claims_are_live_references;
pub use pool::{LockedPool, PoolSeat, SharedPool};
