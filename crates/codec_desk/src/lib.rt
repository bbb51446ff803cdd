//! Codecs that share one pool and one registry of boxes, and steps of work on them. Each thread works through seats of its own,
//! and what its entries call for elsewhere is what it makes there.
#![tactic(auto)]

mod desk;
mod helping;
mod items;
mod loops;
mod pause;
mod rooms;
mod rounds;
mod steps;

pub use desk::{Desk, Seats};
pub use helping::await_helping;
pub use items::work_item;
pub use loops::{item_loop, turn_loop};
pub use rounds::{item_round, turn_round};
pub use steps::{call_once, look_at_promise, turn_once};
pub use work_moments::{Clock, Gate, OpenGate, Watch};
