// What names in scripts name, and what steps define.
ghost use Rattle.std.specs.Prelude.{◌≡◌, bytes_eq, option_map};
ghost use Rattle.std.specs.List.{find};
ghost use Rattle.script_types.specs.Names.{binds, binds_media};
ghost use Rattle.script_types.specs.Names as spec;

use crate::{InitShape, Kind, MediaStep, PortKind, Step, VariableKind};
use wc_base::Ground;

/// The word of a kind, in scripts and in reports.
pub fn kind_text(kind: Kind) -> &'static str
    ensures { result.now ≡ spec.kind_text kind }
{
    match kind {
        Kind::AudioDecoder => "audio-decoder",
        Kind::AudioEncoder => "audio-encoder",
        Kind::VideoDecoder => "video-decoder",
        Kind::VideoEncoder => "video-encoder",
    }
}

const KINDS: [Kind; 4] = [
    Kind::AudioDecoder,
    Kind::AudioEncoder,
    Kind::VideoDecoder,
    Kind::VideoEncoder,
];

// The first of these kinds whose word this is.
fn first_kind(kinds: &[Kind], word: &[u8]) -> Option<Kind>
    ensures { result ≡ find (λ kind. bytes_eq word.now (spec.kind_text kind)) kinds.now }
{
    kinds
        .iter()
        .copied()
        .find(|kind| word == kind_text(*kind).as_bytes())
}

/// The kind whose word this is.
pub fn kind_named(word: &[u8]) -> Option<Kind>
    ensures { result ≡ spec.kind_named word.now }
{
    first_kind(&KINDS, word)
}

/// The word of a ground, in scripts and in reports.
pub fn ground_text(at: Ground) -> &'static str
    ensures { result.now ≡ spec.ground_text at }
{
    match at {
        Ground::Foreground => "foreground",
        Ground::Background => "background",
        Ground::BackgroundEncoding => "background-encoding",
    }
}

const GROUNDS: [Ground; 3] = [
    Ground::Foreground,
    Ground::Background,
    Ground::BackgroundEncoding,
];

/// The ground whose word this is.
pub fn ground_named(word: &[u8]) -> Option<Ground>
    ensures { result ≡ spec.ground_named word.now }
{
    GROUNDS
        .iter()
        .copied()
        .find(|at| word == ground_text(*at).as_bytes())
}

/// Whether a codec of this kind decodes.
pub fn decodes(kind: Kind) -> bool
    ensures { result ≡ spec.decodes kind }
{
    match kind {
        Kind::AudioDecoder | Kind::VideoDecoder => true,
        Kind::AudioEncoder | Kind::VideoEncoder => false,
    }
}

/// What the outputs of a codec of this kind are.
pub fn outputs_of(kind: Kind) -> VariableKind
    ensures { result ≡ spec.outputs_of kind }
{
    match kind {
        Kind::AudioDecoder => VariableKind::Audio,
        Kind::AudioEncoder | Kind::VideoEncoder => VariableKind::Chunk,
        Kind::VideoDecoder => VariableKind::Frame,
    }
}

/// What a codec of this kind is given: chunks, or the media that it encodes.
pub fn inputs_of(kind: Kind) -> VariableKind
    ensures { result ≡ spec.inputs_of kind }
{
    match kind {
        Kind::AudioDecoder | Kind::VideoDecoder => VariableKind::Chunk,
        Kind::AudioEncoder => VariableKind::Audio,
        Kind::VideoEncoder => VariableKind::Frame,
    }
}

/// What the ports that this word names are of.
pub fn port_named(word: &str) -> Option<PortKind>
    ensures { result ≡ spec.port_named word.now }
{
    match word {
        "audio" => Some(PortKind::Audio),
        "frame" => Some(PortKind::Frame),
        _ => None,
    }
}

/// What is posted at a port of this kind.
pub fn posted_at(of: PortKind) -> VariableKind
    ensures { result ≡ spec.posted_at of }
{
    match of {
        PortKind::Audio => VariableKind::Audio,
        PortKind::Frame => VariableKind::Frame,
    }
}

/// What an init of this shape makes.
fn made_of(shape: InitShape) -> VariableKind
    ensures { result ≡ spec.made_of shape }
{
    match shape {
        InitShape::Chunk { .. } => VariableKind::Chunk,
        InitShape::Sound(_) => VariableKind::Audio,
        InitShape::Picture(_) => VariableKind::Frame,
    }
}

fn bound_media(step: &MediaStep) -> Option<(&str, VariableKind)>
    ensures { option_map (λ b. (b.0.now, b.1)) result ≡ binds_media step.now }
{
    match step {
        MediaStep::Audio { bind, init: _ } => Some((bind.as_str(), VariableKind::Audio)),
        MediaStep::Frame { bind, init: _ } => Some((bind.as_str(), VariableKind::Frame)),
        MediaStep::Buffer { bind, content: _ } => Some((bind.as_str(), VariableKind::Buffer)),
        MediaStep::Buffered { bind, init } => Some((bind.as_str(), made_of(init.shape))),
        MediaStep::Take { on: _, bind, kind } => Some((bind.as_str(), *kind)),
        MediaStep::Receive {
            from: _,
            bind,
            kind,
        } => Some((bind.as_str(), *kind)),
        MediaStep::Clone { of, bind } => Some((bind.as_str(), of.kind)),
        MediaStep::Transfer { of, bind } => Some((bind.as_str(), of.kind)),
        MediaStep::Encode { on: _, content: _ } => None,
        MediaStep::CloseData { of: _ } => None,
        MediaStep::Copy {
            of: _,
            options: _,
            size: _,
        } => None,
        MediaStep::Size { of: _, options: _ } => None,
        MediaStep::Post { to: _, content: _ } => None,
    }
}

impl Step {
    /// The variable that the step defines, and what it holds.
    pub fn bound(&self) -> Option<(&str, VariableKind)>
        ensures { option_map (λ b. (b.0.now, b.1)) result ≡ binds self.now }
    {
        match self {
            Step::Chunk { bind, source: _ } => Some((bind.as_str(), VariableKind::Chunk)),
            Step::Flush { on: _, bind } => Some((bind.as_str(), VariableKind::Promise)),
            Step::Media(step) => bound_media(step),
            Step::Configure { on: _, config: _ } => None,
            Step::Decode { on: _, chunk: _ } => None,
            Step::Poll { promise: _ } | Step::Await { promise: _ } => None,
            Step::Reset { on: _ } | Step::Close { on: _ } | Step::State { on: _ } => None,
            Step::Ground { on: _, to: _ } => None,
        }
    }
}
