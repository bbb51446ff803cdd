//! Laws of legal runs that fit their scripts: all that their reports tell is within its types.
#![tactic(auto)]

mod laws;

pub use laws::legal_runs_fit;
