//! What a run of a script recorded, when it is legal, and when it fits its script.
#![tactic(auto)]

mod chunks;
mod laws;
mod run;

pub use chunks::{chunks_of, find_chunk, steps_of};
pub use laws::fits_by_places;
pub use report_text::StepResult;
pub use run::{CallerTrace, CodecTrace, Run};
