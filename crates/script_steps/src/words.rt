// Words of steps.

/// What a step of media resources does.
#[derive(Clone, Copy, Debug, PartialEq, Eq)]
pub enum MediaWord {
    Audio,
    Frame,
    Buffer,
    Encode,
    Take,
    Clone,
    Transfer,
    CloseData,
    Copy,
    Size,
    Post,
    Receive,
}

/// What a step does.
#[derive(Clone, Copy, Debug, PartialEq, Eq)]
pub enum StepWord {
    Configure,
    Chunk,
    Decode,
    Flush,
    Poll,
    Await,
    Reset,
    Close,
    State,
    Ground,
    Media(MediaWord),
}
