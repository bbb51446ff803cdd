//! Subframes of FLAC: the first candidate of least length, and its bits (RFC 9639, section 9.2).
#![tactic(auto)]

mod choice;
mod leasts;
mod likely;
mod orders;
mod subframe;

pub use choice::best_choice;
pub use flac_definitions::{Candidate, Choice};
pub use orders::residual_of;
pub use subframe::write_subframe;
