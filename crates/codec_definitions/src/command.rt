// What a codec is told.
use wc_base::{Picture, Samples};
use wc_chunk::Chunk;

/// What a coder is told: an input, or to give what it still holds.
#[derive(Debug, PartialEq, Drop)]
pub enum Command {
    Chunk(Chunk),
    Sound(Samples),
    Image(Picture),
    Drain,
}
