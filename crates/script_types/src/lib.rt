//! What a script holds: its codecs, its callers with their steps, and the order in which all is done.
#![tactic(auto)]

mod fault;
mod found;
mod limits;
mod names;
mod options;
mod script;
mod steps;
mod texts;

pub use chunk_files::Stop;
pub use fault::{Counted, Fault, Place, Wrong};
pub use found::{FoundCodec, FoundVariable};
pub use limits::limit_of;
pub use names::{
    decodes, ground_named, ground_text, inputs_of, kind_named, kind_text, outputs_of, port_named,
    posted_at,
};
pub use options::{AudioOptions, FormatWord, FrameOptions, LayoutWords, Options, RectWords};
pub use script::{CallerItem, CodecItem, OrderItem, PortItem, PortKind, Script, ScriptData};
pub use steps::{
    BufferedInit, ChunkInit, ChunkSource, InitData, InitShape, MediaStep, PictureInit, SoundInit,
    Step, Variable, VariableKind,
};
pub use texts::{copied, unread};
pub use wc_config::Kind;
