//! The media that callers' variables hold: audio data, video frames and chunks, with the pool of their references.
#![tactic(auto)]

mod buffered;
mod caller;
mod callers;
mod copies;
mod ending;
mod given;
mod laws;
mod lending;
mod medium;
mod steps;
mod variables;

pub use caller::Variables;
pub use callers::CallerMedia;
pub use laws::references_stay_held;
pub use lending::MediumFound;
pub use medium::Medium;
