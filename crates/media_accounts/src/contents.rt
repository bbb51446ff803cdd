// What variables hold of audio data, of frames, of buffers and of chunks.
ghost use Rattle.media_accounts.specs.Contents.{ContentsAreKept, ChunksAreGiven};

/// A law, whatever the pool's history is: audio data or a frame that a variable holds has the shape and bytes that its
/// caller's steps gave the variable, and a chunk that one holds was taken by the variable's step, or made by its init.
pub fn contents_are_kept()
    ensures media { ContentsAreKept }
    ensures chunks { ChunksAreGiven }
{}
