//! Chunk files: encoded chunks, one after the other, in one file.
#![tactic(auto)]

mod fault;
mod laws;
mod read;
mod write;

pub use fault::{ChunkFault, DemuxFault, MediaFault, Stop};
pub use laws::{bytes_have_one_reading, cut_files_are_short, written_chunks_are_read};
pub use read::read_chunks;
pub use write::write_chunks;
