//! Lists in segments of 1,024 items, which are never copied as they grow.
#![tactic(auto)]

mod items;
mod list;
mod segment;
mod vector;

pub use items::Items;
pub use list::SegmentedList;
pub use segment::{SEGMENT_LENGTH, Segment};
pub use vector::SegmentedVec;
