//! Replays a script on one thread: every item of its order in turn, and what it came to.
#![tactic(auto)]

mod boxes;
mod copied;
mod desk;
mod missing;
mod moving;
mod playing;
mod ports;
mod results;
mod showings;
mod steps;

pub use missing::missing_chunk;
pub use order_laws::{following_fits, listed_ends_make_one_run};
pub use playing::{replay, replay_with};
