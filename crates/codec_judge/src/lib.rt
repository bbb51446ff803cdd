//! How much of a codec's history is lawful, and what the codec's definition shows for that: the history is made again, entry
//! after entry, by coders that are lent.
#![tactic(auto)]

mod boxes;
mod judge;
mod lender;
mod shown;
mod walk;

pub use lender::Lender;
pub use walk::shown_by;
