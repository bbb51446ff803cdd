// What members the objects of a script have.

/// What stands for a value.
#[derive(Clone, Copy, PartialEq, Eq)]
pub enum Wanted {
    /// The name of something new.
    Fresh,
    /// The name of a codec: of any, of one that decodes, of one that encodes.
    Codec,
    Decoder,
    Encoder,
    /// The name of a port.
    Port,
    /// A variable: a chunk, audio data, a frame, one of these two, one of these three, a promise, a buffer, audio data, a frame or
    /// a buffer.
    Chunk,
    Audio,
    Frame,
    Medium,
    Copied,
    Promise,
    Buffer,
    Sized,
    /// Hex text, or an object that names a buffer.
    Data,
    Kind,
    PortKind,
    Ground,
    Saturation,
    Size,
    Text,
    Hex,
    Natural,
    Integer,
    Object,
    Array,
}

/// Whether an object has to have a member.
#[derive(Clone, Copy, PartialEq, Eq)]
enum Need {
    Must,
    May,
}

/// A member that an object may have, or has to have.
#[derive(Clone, Copy)]
pub struct Rule(&'static str, Wanted, Need);

impl Rule {
    pub fn name(&self) -> &'static str {
        self.0
    }

    pub fn wanted(&self) -> Wanted {
        self.1
    }

    pub fn is_needed(&self) -> bool {
        self.2 == Need::Must
    }

    /// Whether the member names a codec of any kind.
    pub fn is_codec(&self) -> bool {
        matches!(self.1, Wanted::Codec)
    }
}

/// An object of a script.
#[derive(Clone, Copy, PartialEq, Eq)]
pub enum Form {
    Script,
    Codec,
    Caller,
    Item,
    Configure,
    Chunk,
    Decode,
    Make,
    Encode,
    EncodeAudio,
    EncodeFrame,
    Flush,
    Look,
    On,
    Ground,
    Take,
    Hand,
    CloseData,
    Copy,
    Size,
    Buffer,
    Post,
    PostAudio,
    PostFrame,
    Receive,
    Port,
    Data,
    Config,
    Flac,
    Init,
    Options,
    Rect,
    Plane,
}

const SCRIPT: [Rule; 4] = [
    Rule("codecs", Wanted::Array, Need::Must),
    Rule("callers", Wanted::Array, Need::Must),
    Rule("order", Wanted::Array, Need::Must),
    Rule("ports", Wanted::Array, Need::May),
];

const PORT: [Rule; 2] = [
    Rule("name", Wanted::Fresh, Need::Must),
    Rule("of", Wanted::PortKind, Need::Must),
];

const CODEC: [Rule; 3] = [
    Rule("name", Wanted::Fresh, Need::Must),
    Rule("kind", Wanted::Kind, Need::Must),
    Rule("saturation", Wanted::Saturation, Need::May),
];

const CALLER: [Rule; 2] = [
    Rule("name", Wanted::Fresh, Need::Must),
    Rule("steps", Wanted::Array, Need::Must),
];

const ITEM: [Rule; 5] = [
    Rule("start", Wanted::Codec, Need::May),
    Rule("done", Wanted::Codec, Need::May),
    Rule("turn", Wanted::Codec, Need::May),
    Rule("reclaim", Wanted::Codec, Need::May),
    Rule("at", Wanted::Natural, Need::May),
];

const CONFIG: [Rule; 12] = [
    Rule("codec", Wanted::Text, Need::May),
    Rule("sampleRate", Wanted::Integer, Need::May),
    Rule("numberOfChannels", Wanted::Integer, Need::May),
    Rule("description", Wanted::Hex, Need::May),
    Rule("flac", Wanted::Object, Need::May),
    Rule("codedWidth", Wanted::Integer, Need::May),
    Rule("codedHeight", Wanted::Integer, Need::May),
    Rule("displayAspectWidth", Wanted::Integer, Need::May),
    Rule("displayAspectHeight", Wanted::Integer, Need::May),
    Rule("width", Wanted::Integer, Need::May),
    Rule("height", Wanted::Integer, Need::May),
    Rule("keyInterval", Wanted::Integer, Need::May),
];

const FLAC: [Rule; 3] = [
    Rule("blockSize", Wanted::Integer, Need::May),
    Rule("compressLevel", Wanted::Integer, Need::May),
    Rule("bitsPerSample", Wanted::Integer, Need::May),
];

const DATA: [Rule; 1] = [Rule("buffer", Wanted::Buffer, Need::Must)];

/// An item of a transfer list, and how many a list may have.
pub const TRANSFER: Rule = Rule("transfer", Wanted::Buffer, Need::Must);

pub const MOST_TRANSFER: usize = 16;

const INIT: [Rule; 11] = [
    Rule("type", Wanted::Text, Need::May),
    Rule("timestamp", Wanted::Integer, Need::May),
    Rule("duration", Wanted::Integer, Need::May),
    Rule("data", Wanted::Data, Need::May),
    Rule("transfer", Wanted::Array, Need::May),
    Rule("format", Wanted::Text, Need::May),
    Rule("sampleRate", Wanted::Integer, Need::May),
    Rule("numberOfFrames", Wanted::Integer, Need::May),
    Rule("numberOfChannels", Wanted::Integer, Need::May),
    Rule("codedWidth", Wanted::Integer, Need::May),
    Rule("codedHeight", Wanted::Integer, Need::May),
];

const OPTIONS: [Rule; 6] = [
    Rule("planeIndex", Wanted::Integer, Need::May),
    Rule("frameOffset", Wanted::Integer, Need::May),
    Rule("frameCount", Wanted::Integer, Need::May),
    Rule("format", Wanted::Text, Need::May),
    Rule("rect", Wanted::Object, Need::May),
    Rule("layout", Wanted::Array, Need::May),
];

const RECT: [Rule; 4] = [
    Rule("x", Wanted::Integer, Need::May),
    Rule("y", Wanted::Integer, Need::May),
    Rule("width", Wanted::Integer, Need::May),
    Rule("height", Wanted::Integer, Need::May),
];

const PLANE: [Rule; 2] = [
    Rule("offset", Wanted::Integer, Need::May),
    Rule("stride", Wanted::Integer, Need::May),
];

const CONFIGURE: [Rule; 2] = [
    Rule("on", Wanted::Codec, Need::Must),
    Rule("config", Wanted::Object, Need::Must),
];

const CHUNK: [Rule; 4] = [
    Rule("as", Wanted::Fresh, Need::Must),
    Rule("init", Wanted::Object, Need::May),
    Rule("file", Wanted::Text, Need::May),
    Rule("index", Wanted::Natural, Need::May),
];

const DECODE: [Rule; 2] = [
    Rule("on", Wanted::Decoder, Need::Must),
    Rule("chunk", Wanted::Chunk, Need::Must),
];

const MAKE: [Rule; 2] = [
    Rule("as", Wanted::Fresh, Need::Must),
    Rule("init", Wanted::Object, Need::Must),
];

const ENCODE: [Rule; 2] = [
    Rule("on", Wanted::Encoder, Need::Must),
    Rule("data", Wanted::Medium, Need::Must),
];

const ENCODE_AUDIO: [Rule; 2] = [
    Rule("on", Wanted::Encoder, Need::Must),
    Rule("data", Wanted::Audio, Need::Must),
];

const ENCODE_FRAME: [Rule; 2] = [
    Rule("on", Wanted::Encoder, Need::Must),
    Rule("data", Wanted::Frame, Need::Must),
];

const FLUSH_OR_TAKE: [Rule; 2] = [
    Rule("on", Wanted::Codec, Need::Must),
    Rule("as", Wanted::Fresh, Need::Must),
];

const LOOK: [Rule; 1] = [Rule("promise", Wanted::Promise, Need::Must)];

const ON: [Rule; 1] = [Rule("on", Wanted::Codec, Need::Must)];

const GROUND: [Rule; 2] = [
    Rule("on", Wanted::Codec, Need::Must),
    Rule("to", Wanted::Ground, Need::Must),
];

const HAND: [Rule; 2] = [
    Rule("of", Wanted::Medium, Need::Must),
    Rule("as", Wanted::Fresh, Need::Must),
];

const CLOSE_DATA: [Rule; 1] = [Rule("of", Wanted::Medium, Need::Must)];

const COPY: [Rule; 3] = [
    Rule("of", Wanted::Copied, Need::Must),
    Rule("size", Wanted::Size, Need::Must),
    Rule("options", Wanted::Object, Need::May),
];

const BUFFER: [Rule; 2] = [
    Rule("as", Wanted::Fresh, Need::Must),
    Rule("data", Wanted::Hex, Need::Must),
];

const POST: [Rule; 2] = [
    Rule("to", Wanted::Port, Need::Must),
    Rule("data", Wanted::Medium, Need::Must),
];

const POST_AUDIO: [Rule; 2] = [
    Rule("to", Wanted::Port, Need::Must),
    Rule("data", Wanted::Audio, Need::Must),
];

const POST_FRAME: [Rule; 2] = [
    Rule("to", Wanted::Port, Need::Must),
    Rule("data", Wanted::Frame, Need::Must),
];

const RECEIVE: [Rule; 2] = [
    Rule("from", Wanted::Port, Need::Must),
    Rule("as", Wanted::Fresh, Need::Must),
];

const SIZE: [Rule; 2] = [
    Rule("of", Wanted::Sized, Need::Must),
    Rule("options", Wanted::Object, Need::May),
];

/// The members of an object, in order; of `config`, `init` and `options` those of all kinds.
pub fn rules_of(form: Form) -> &'static [Rule] {
    match form {
        Form::Script => &SCRIPT,
        Form::Codec => &CODEC,
        Form::Caller => &CALLER,
        Form::Item => &ITEM,
        Form::Config => &CONFIG,
        Form::Flac => &FLAC,
        Form::Init => &INIT,
        Form::Options => &OPTIONS,
        Form::Rect => &RECT,
        Form::Plane => &PLANE,
        Form::Configure => &CONFIGURE,
        Form::Chunk => &CHUNK,
        Form::Decode => &DECODE,
        Form::Make => &MAKE,
        Form::Encode => &ENCODE,
        Form::EncodeAudio => &ENCODE_AUDIO,
        Form::EncodeFrame => &ENCODE_FRAME,
        Form::Flush | Form::Take => &FLUSH_OR_TAKE,
        Form::Look => &LOOK,
        Form::On => &ON,
        Form::Ground => &GROUND,
        Form::Hand => &HAND,
        Form::CloseData => &CLOSE_DATA,
        Form::Copy => &COPY,
        Form::Size => &SIZE,
        Form::Buffer => &BUFFER,
        Form::Post => &POST,
        Form::PostAudio => &POST_AUDIO,
        Form::PostFrame => &POST_FRAME,
        Form::Receive => &RECEIVE,
        Form::Port => &PORT,
        Form::Data => &DATA,
    }
}

/// The words of `do`, with commas.
pub const STEP_WORDS: &str =
    "configure, chunk, decode, audio, frame, encode, flush, poll, await, reset, close, take, \
     state, ground, clone, transfer, close-data, copy, size, buffer, post, receive";

/// What the step of this word has.
pub fn form_of_word(word: &[u8]) -> Option<Form> {
    match word {
        b"configure" => Some(Form::Configure),
        b"chunk" => Some(Form::Chunk),
        b"decode" => Some(Form::Decode),
        b"audio" | b"frame" => Some(Form::Make),
        b"encode" => Some(Form::Encode),
        b"flush" => Some(Form::Flush),
        b"poll" | b"await" => Some(Form::Look),
        b"reset" | b"close" | b"state" => Some(Form::On),
        b"ground" => Some(Form::Ground),
        b"take" => Some(Form::Take),
        b"clone" | b"transfer" => Some(Form::Hand),
        b"close-data" => Some(Form::CloseData),
        b"copy" => Some(Form::Copy),
        b"size" => Some(Form::Size),
        b"buffer" => Some(Form::Buffer),
        b"post" => Some(Form::Post),
        b"receive" => Some(Form::Receive),
        _ => None,
    }
}

/// What is wanted, in words.
pub fn words_of(wanted: Wanted) -> &'static str {
    match wanted {
        Wanted::Fresh => "a new name",
        Wanted::Codec => "the name of a codec",
        Wanted::Decoder => "the name of a decoder",
        Wanted::Encoder => "the name of an encoder",
        Wanted::Chunk => "the name of a chunk",
        Wanted::Audio => "the name of audio data",
        Wanted::Frame => "the name of a frame",
        Wanted::Medium => "the name of audio data or of a frame",
        Wanted::Copied => "the name of audio data, of a frame or of a chunk",
        Wanted::Promise => "the name of a promise",
        Wanted::Buffer => "the name of a buffer",
        Wanted::Sized => "the name of audio data, of a frame or of a buffer",
        Wanted::Port => "the name of a port",
        Wanted::PortKind => "audio or frame",
        Wanted::Data => {
            "a text of pairs of hexadecimal digits, or an object that names a buffer by \"buffer\""
        }
        Wanted::Kind => "audio-decoder, audio-encoder, video-decoder or video-encoder",
        Wanted::Ground => "foreground, background or background-encoding",
        Wanted::Saturation => "a number from 1 to 64",
        Wanted::Size => "a number up to 16777216",
        Wanted::Text => "a text",
        Wanted::Hex => "a text of pairs of hexadecimal digits",
        Wanted::Natural => "a number from 0 to 2^64 - 1, with no point, sign or exponent",
        Wanted::Integer => "a number with no point or exponent",
        Wanted::Object => "an object",
        Wanted::Array => "an array",
    }
}
