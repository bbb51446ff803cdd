//! Laws of one codec's legal histories: what their outputs are, how great their numbers, and by which entries clones end.
#![tactic(auto)]

mod laws;

pub use laws::clones_by_places;
