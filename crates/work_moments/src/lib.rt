//! What the work of items asks of outside: the moment now, and whether a job may go on.
#![tactic(auto)]

mod clock;
mod gate;

pub use clock::{Clock, ListClock, StillClock};
pub use gate::{Gate, OpenGate, Watch};
