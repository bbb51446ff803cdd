//! That ports deliver what the callers of a run posted, and that no medium goes round in a circle.
#![tactic(auto)]

mod laws;

pub use laws::{ports_deliver, runs_are_ranked};
