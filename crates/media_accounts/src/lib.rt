//! What callers' steps on media, and the entries of codecs, call for in the history of the pool of media.
#![tactic(auto)]

mod contents;
mod laws;

pub use contents::contents_are_kept;
pub use laws::{codecs_stand, media_stand, what_is_brought_may_grow};
