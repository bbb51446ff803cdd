//! Ports between threads: each thread posts media of one shared pool and receives them, through a pass of its own, and what
//! the passes posted adds up to what they received and what is left.
#![tactic(auto)]

mod carried;
mod laws;
mod mouth;
mod port;
mod rest;
mod rule;

pub use carried::Carried;
pub use laws::last_passes_account;
pub use mouth::{About, Mouth};
pub use port::{PortPass, SharedPort};
pub use rest::PortRest;
pub use rule::{PortLaw, PortView};
