//! What following a script's order makes: it fits the script.
#![tactic(auto)]

mod laws;

pub use laws::{following_fits, following_stands, listed_ends_make_one_run, runs_by_order_are_one};
