//! Laws of the calls of all callers of a run, against the codecs' histories.
#![tactic(auto)]

mod laws;

pub use laws::calls_stand_once;
