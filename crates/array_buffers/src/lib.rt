//! Array buffers: bytes in a media resource, which is handed on or ends as a buffer is transferred (W3C WebCodecs, the
//! `transfer` lists of its inits).
#![tactic(auto)]

mod buffer;
mod transfers;

pub use buffer::ArrayBuffer;
pub use transfers::check_transfer;
