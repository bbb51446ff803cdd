//! What every part of the engine speaks of: exceptions, callers, media formats, lists and texts that contracts see
//! as their items, the traits for files and sinks that are handed in, and the tokens that hold claims at locks.
#![tactic(auto)]

mod error;
mod files;
mod ground;
mod list;
mod media;
mod seat;
mod sink;
mod text;
mod who;

pub use error::{DomError, Failed, NoMemory};
pub use files::{FileFault, Files, MemFiles, SystemFiles};
pub use ground::Ground;
pub use list::{List, try_push};
pub use media::{Picture, PictureFormat, PictureShape, SampleFormat, Samples, SoundShape};
pub use seat::{Passage, Phase, Token, View};
pub use sink::{MemSink, Output, Sink};
pub use text::Text;
pub use who::{By, Who};
