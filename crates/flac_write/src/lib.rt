//! Bits, headers and residuals of FLAC (RFC 9639), written.
#![tactic(auto)]

mod header;
mod laws;
mod writer;

pub use flac_definitions::FrameHeader;
pub use header::write_header;
pub use laws::written_headers_are_read;
pub use writer::BitWriter;
