//! Steps of scripts, read from JSON: what single objects spell, what the names in them name, and the step of each.
#![tactic(auto)]

mod buffers;
mod config;
mod files;
mod heads;
mod inline;
mod laws;
mod lookups;
mod media;
mod media_steps;
mod members;
mod options;
mod places;
mod ports;
mod references;
mod source;
mod steps;
mod variables;
mod words;

pub use buffers::{BufferWords, DataWords, has_buffers, read_buffered};
pub use config::read_config;
pub use files::Files;
pub use heads::{find_caller, find_codec, is_caller_name, is_codec_name};
pub use inline::{read_inline_data, word_member};
pub use laws::{steps_are_sound, steps_are_within};
pub use media::{read_chunk_init, read_picture_init, read_sound_init, read_step_data};
pub use members::{
    array_member, as_name, has, name_member, natural_member, object_member, optional_object,
    text_member,
};
pub use options::read_options;
pub use ports::{FoundPort, Ports, read_port};
pub use script_types::{Stop, Wrong, copied};
pub use source::{SourceWords, read_source};
pub use steps::read_step;
pub use variables::Variables;
pub use words::{MediaWord, StepWord};
