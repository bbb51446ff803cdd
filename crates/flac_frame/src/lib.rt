//! Headers of FLAC frames (RFC 9639, section 9.1).
#![tactic(auto)]

mod fields;
mod header;
mod laws;

pub use flac_definitions::{FrameHeader, HeaderFault, HeaderField};
pub use header::read_header;
pub use laws::headers_are_spelled;
