//! Audio data: samples in a media resource (W3C WebCodecs, AudioData), cloned, transferred, closed and
//! copied in another format.
#![tactic(auto)]

mod copying;
mod data;
mod options;
mod planning;

pub use data::AudioData;
pub use options::{CopyFormat, CopyOptions, Plan};
