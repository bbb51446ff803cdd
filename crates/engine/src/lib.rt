//! Audio decoders and encoders with their coders, as a media runtime drives them: each call is one
//! step of W3C WebCodecs, and what the last step showed is kept until the next one.
#![tactic(auto)]

mod answers;
mod codec;
mod coder;
mod made;
mod media;
mod shown;
#[cfg(test)]
mod tests;
mod work;

pub use answers::{
    AudioConfig, ChunkHead, ChunkOutput, ConfigOutput, EncoderNumbers, Look, Output, Reply,
    SamplesHead, Settled, Turn,
};
pub use codec::{AudioCodec, may_be_sent};
pub use coder::AudioCoder;
pub use work::WorkItem;
