// The steps of callers.
use crate::Options;
use bytes::Bytes;
use wc_base::{Ground, List, PictureShape, SoundShape, Text};
use wc_config::Config;

/// What a variable holds.
#[derive(Clone, Copy, Debug, PartialEq, Eq)]
pub enum VariableKind {
    Chunk,
    Audio,
    Frame,
    Promise,
    Buffer,
}

/// A variable: its name, the number of the caller's step that defines it, and what it holds.
#[derive(Debug, PartialEq, Drop)]
pub struct Variable {
    pub name: Text,
    pub step: u32,
    pub kind: VariableKind,
}

/// What a chunk is made of (W3C WebCodecs, EncodedAudioChunkInit): `key` for the type, `timestamp` and `duration` in
/// microseconds.
#[derive(Debug, PartialEq, Drop)]
pub struct ChunkInit {
    pub key: bool,
    pub timestamp: i64,
    pub duration: Option<u64>,
    pub content: Bytes,
}

/// Where a chunk comes from.
#[derive(Debug, PartialEq, Drop)]
pub enum ChunkSource {
    /// It is made; `None` where what it is made of breaks a rule of WebIDL: a required member is missing, a number is
    /// outside its type, or the chunk's type is an unknown word.
    Init(Option<ChunkInit>),
    /// It is the chunk of this number, from 0, of the chunk file of this number.
    File { file: u32, index: u64 },
}

/// What audio data is made of (W3C WebCodecs, AudioDataInit).
#[derive(Debug, PartialEq, Drop)]
pub struct SoundInit {
    pub shape: SoundShape,
    pub content: Bytes,
}

/// What a frame is made of (W3C WebCodecs, VideoFrameBufferInit).
#[derive(Debug, PartialEq, Drop)]
pub struct PictureInit {
    pub shape: PictureShape,
    pub content: Bytes,
}

/// Where the bytes of an init come from.
#[derive(Debug, PartialEq, Drop)]
pub enum InitData {
    Hex(Bytes),
    /// They are those of the buffer that this variable holds.
    Buffer(Variable),
}

/// What an init makes, apart from its bytes.
#[derive(Clone, Copy, Debug, PartialEq, Eq)]
pub enum InitShape {
    Chunk {
        key: bool,
        timestamp: i64,
        duration: Option<u64>,
    },
    Sound(SoundShape),
    Picture(PictureShape),
}

/// What a chunk, audio data or a frame is made of where its init names array buffers: its data is a buffer's, or it lists
/// buffers that it takes over (W3C WebCodecs, the member `transfer` of the three inits).
#[derive(Debug, PartialEq, Drop)]
pub struct BufferedInit {
    pub shape: InitShape,
    pub content: InitData,
    pub transfer: List<Variable>,
}

/// A step that makes, uses or lets go of a media resource. `init` and the options are `None` where they break a rule of
/// WebIDL.
#[derive(Debug, PartialEq, Drop)]
pub enum MediaStep {
    Audio {
        bind: Text,
        init: Option<SoundInit>,
    },
    Frame {
        bind: Text,
        init: Option<PictureInit>,
    },
    /// Makes an array buffer of these bytes.
    Buffer {
        bind: Text,
        content: Bytes,
    },
    /// Makes a chunk, audio data or a frame by an init that names buffers. Without buffers it is `Audio`, `Frame` or a step
    /// that makes a chunk.
    Buffered {
        bind: Text,
        init: BufferedInit,
    },
    Encode {
        on: u32,
        content: Variable,
    },
    /// `kind` is what the codec's outputs are.
    Take {
        on: u32,
        bind: Text,
        kind: VariableKind,
    },
    Clone {
        of: Variable,
        bind: Text,
    },
    Transfer {
        of: Variable,
        bind: Text,
    },
    CloseData {
        of: Variable,
    },
    /// Copies into as many zero bytes as `size` says.
    Copy {
        of: Variable,
        options: Options,
        size: u64,
    },
    Size {
        of: Variable,
        options: Options,
    },
    /// Hands a medium into the port with this number.
    Post {
        to: u64,
        content: Variable,
    },
    /// Takes the medium that was posted first and not received yet out of the port with this number; `kind` is what the port
    /// is of.
    Receive {
        from: u64,
        bind: Text,
        kind: VariableKind,
    },
}

/// One step of a caller. `on` is a codec's number, and `bind` the name of the variable that the step defines.
#[derive(Debug, PartialEq, Drop)]
pub enum Step {
    Configure { on: u32, config: Config },
    Chunk { bind: Text, source: ChunkSource },
    Decode { on: u32, chunk: Variable },
    Flush { on: u32, bind: Text },
    Poll { promise: Variable },
    Await { promise: Variable },
    Reset { on: u32 },
    Close { on: u32 },
    State { on: u32 },
    /// Tells the codec where it is at work.
    Ground { on: u32, to: Ground },
    Media(MediaStep),
}
