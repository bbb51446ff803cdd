// Each coder is the one that its codec asks for, by its role and by the codec's string.
use crate::codecs::{all_codecs, coder_box, kind_of};
use coder_api::Coder;
use report_text::codec_text;
use std::alloc::Global;
use std::test::Fail;
use wc_base::{NoMemory, Text};
use wc_config::{
    AudioDecoderConfig, AudioEncoderConfig, CodecId, CoderId, Config, Role, VideoDecoderConfig,
    VideoEncoderConfig,
};

#[test]
fn each_box_has_a_coder_of_its_role_and_codec(rt: HostRuntime) -> Result<(), Fail> {
    let alloc = rt.alloc();
    for role in [Role::Decode, Role::Encode] {
        for codec in all_codecs() {
            let coder = coder_box!(alloc, role, kind_of(role, *codec), Err(NoMemory)?);
            let wanted = CoderId {
                role,
                codec: *codec,
            };
            assert_eq!(rt; coder.id(), wanted);
        }
    }
    Ok(())
}

// The decoder that a config of sound, or else one of pictures, asks for by the codec's string in reports.
fn asked_for(alloc: Global, codec: CodecId) -> Result<Option<CoderId>, NoMemory> {
    let sound = Config::AudioDecoder(AudioDecoderConfig {
        codec: Text::of(String::from_str(alloc, codec_text(codec))?),
        rate: 8000,
        channels: 1,
        description: None,
    });
    let pictures = Config::VideoDecoder(VideoDecoderConfig {
        codec: Text::of(String::from_str(alloc, codec_text(codec))?),
        width: None,
        height: None,
        aspect_width: None,
        aspect_height: None,
    });
    Ok(sound.coder_id().or(pictures.coder_id()))
}

// The encoder that a config of sound, or else one of pictures, asks for by the codec's string in reports.
fn encoder_asked_for(alloc: Global, codec: CodecId) -> Result<Option<CoderId>, NoMemory> {
    let sound = Config::AudioEncoder(AudioEncoderConfig {
        codec: Text::of(String::from_str(alloc, codec_text(codec))?),
        rate: 8000,
        channels: 1,
        block_size: 0,
        level: 5,
        depth: 16,
    });
    let pictures = Config::VideoEncoder(VideoEncoderConfig {
        codec: Text::of(String::from_str(alloc, codec_text(codec))?),
        width: 1,
        height: 1,
        key_interval: 0,
    });
    Ok(sound.coder_id().or(pictures.coder_id()))
}

#[test]
fn each_codec_is_asked_for_by_its_string(rt: HostRuntime) -> Result<(), Fail> {
    for codec in all_codecs() {
        let decoder = CoderId {
            role: Role::Decode,
            codec: *codec,
        };
        assert_eq!(rt; asked_for(rt.alloc(), *codec)?, Some(decoder));
        let encoder = CoderId {
            role: Role::Encode,
            codec: *codec,
        };
        assert_eq!(rt; encoder_asked_for(rt.alloc(), *codec)?, Some(encoder));
    }
    Ok(())
}
