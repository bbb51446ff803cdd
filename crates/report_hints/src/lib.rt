//! Hints on a report that is wrong, for a person: what stands at the line at fault, which rule it breaks, and what a replay
//! of the script has there.
//!
//! Of this crate it is proved that each call is safe and ends. No clause says what a hint holds, and no verdict depends on one.
#![tactic(auto)]

mod hints;
mod place;

pub use hints::{Fault, verdict_hints};
