//! The summary of a run of a load's script.
#![tactic(auto)]

mod lacks;
mod summary;
mod tally;

pub use lacks::loads_lack_nothing;
pub use summary::load_text;
