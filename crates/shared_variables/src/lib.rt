//! The media that a caller's variables hold, at a seat of a shared pool: steps on them, takes of outputs, and loans to codecs; and at
//! passes of ports.
#![tactic(auto)]

mod parcel;
mod ports;
mod seats;

pub use parcel::Parcel;
pub use ports::{post_at, receive_at};
pub use seats::{lend_at, step_at, take_at};
