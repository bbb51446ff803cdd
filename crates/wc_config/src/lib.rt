//! Configurations of decoders and encoders, and what the codecs' standards say of them.
#![tactic(auto)]

mod codec;
mod config;
mod kind;
mod stream_info;
mod support;

pub use codec::{CodecId, CoderId, Role};
pub use config::{
    AudioDecoderConfig, AudioEncoderConfig, Config, VideoDecoderConfig, VideoEncoderConfig,
};
pub use kind::Kind;
pub use stream_info::{StreamInfo, read_streaminfo};
