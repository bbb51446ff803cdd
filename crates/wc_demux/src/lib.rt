//! Media files as chunks: WAV, native FLAC, and chunk files.
#![tactic(auto)]

mod blocks;
mod flac;
mod format;
mod laws;
mod media;
mod parts;
mod pieces;
mod wav;

pub use flac::{Flac, read_flac};
pub use laws::{files_have_one_reading, media_are_small};
pub use media::{MediaFile, read_media_file};
pub use wav::{Wav, read_wav};
