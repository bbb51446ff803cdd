//! Media resources: who holds a reference to each, and the history of the references made and ended.
#![tactic(auto)]

mod entry;
mod laws;
mod pool;
mod reference;

pub use entry::{MediaFault, PoolEntry, PoolOp};
pub use laws::{references_are_apart, references_end_once, whole_histories};
pub use pool::{Pool, RefPool};
pub use reference::MediaRef;
