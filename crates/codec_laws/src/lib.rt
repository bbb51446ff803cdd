//! Laws of one codec's history by the places of its entries, as a reader of a report sees them.
#![tactic(auto)]

mod answers;
mod book;
mod falls;
mod laws;
mod remains;
mod same;
mod seen;
mod sight;
mod source;

pub use answers::{output_configuration, output_source, promise_end};
pub use falls::fall_between;
pub use laws::{
    contents_are_given, flushes_resolve_last, indexes_rise, nothing_old, nothing_stuck,
    promises_end_once, rejected_only_by_removals, removals_reject, same_calls_show_the_same,
    size_falls_between,
};
pub use remains::{left, quiet};
pub use same::same_shown;
pub use seen::sights;
pub use sight::{Ran, Sight};
pub use source::{Output, Source};
