//! Whether bytes are the report of a run of a script that is legal, fits the script and follows its order; or the number of
//! the line at fault.
#![tactic(auto)]

mod checking;
mod ends;
mod part;
mod verdict;

pub use checking::check;
pub use ends::ends_of;
pub use verdict::Verdict;
