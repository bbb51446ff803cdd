//! Callers of ports, and their tests.
#![tactic(auto)]

mod notes;
#[cfg(test)]
mod tests;

pub use notes::{Note, Received, open_port, post_many, receive_many, send_across, send_all};
