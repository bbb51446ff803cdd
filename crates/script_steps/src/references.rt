// What a step needs a variable to hold.

/// What a step needs a variable to hold. A medium is audio data or a frame, what is copied a medium or a chunk, and what has
/// a size a medium or a buffer.
#[derive(Clone, Copy, Debug, PartialEq, Eq)]
pub enum Needed {
    Chunk,
    Audio,
    Frame,
    Medium,
    Copied,
    Promise,
    Buffer,
    Sized,
}
