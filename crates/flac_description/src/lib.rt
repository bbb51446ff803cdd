//! The description of a FLAC stream (RFC 9639, sections 6 and 8), written.
#![tactic(auto)]

mod description;
mod laws;

pub use description::{DESCRIPTION_SIZE, can_be_written, write_streaminfo};
pub use laws::descriptions_are_spelled;
pub use wc_config::StreamInfo;
