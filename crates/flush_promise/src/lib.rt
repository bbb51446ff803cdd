//! Promises of flushes: each look at one is one look at the codec.
#![tactic(auto)]

mod promise;

pub use promise::{FlushEnd, FlushPromise};
