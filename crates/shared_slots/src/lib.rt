//! A registry of boxes behind a lock: threads acquire boxes and give them back, each through a seat of its own. An acquire is
//! refused exactly where all boxes of its id are out, and a box in hand is out.
#![tactic(auto)]

mod boxes;
mod laws;
mod registry;

pub use laws::live_claims_are_boxes_out;
pub use registry::{LockedSlots, SlotRegistry, SlotSeat};
