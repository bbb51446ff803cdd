//! Histories that follow: each entry is legal after those before it, where each end of an item is taken as it stands. What
//! a coder would give is not computed; outputs are blank. A flush item is never refused.
#![tactic(auto)]

mod ends;
mod follower;
mod known;
mod laws;
mod outputs;

pub use follower::Follower;
pub use laws::{
    legal_histories_follow, legal_steps_are_followed, outputs_are_of_their_kind,
    served_items_give_no_error,
};
pub use outputs::empty_output;
