//! How much of what a run recorded is legal: of each history the entries before the first that is not legal after those
//! before it.
#![tactic(auto)]

mod bag;
mod ledger;
mod pool;
mod slots;

pub use pool::legal_pool_entries;
pub use slots::legal_slot_entries;
