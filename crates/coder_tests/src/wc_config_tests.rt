// Copies with ample memory.
use bytes::Bytes;
use std::alloc::Global;
use std::test::Fail;
use wc_base::Text;
use wc_config::{
    AudioDecoderConfig, AudioEncoderConfig, CodecId, Config, Role, VideoDecoderConfig,
    VideoEncoderConfig,
};

fn text(alloc: Global, codec: &str) -> Result<Text, Fail> {
    Ok(Text::of(String::from_str(alloc, codec)?))
}

fn decoder(alloc: Global, description: Option<Bytes>) -> Result<AudioDecoderConfig, Fail> {
    Ok(AudioDecoderConfig {
        codec: text(alloc, "flac")?,
        rate: 48000,
        channels: 2,
        description,
    })
}

fn encoder(alloc: Global) -> Result<AudioEncoderConfig, Fail> {
    Ok(AudioEncoderConfig {
        codec: text(alloc, "pcm-s24")?,
        rate: 44100,
        channels: 6,
        block_size: 4096,
        level: 5,
        depth: 24,
    })
}

fn video(alloc: Global) -> Result<VideoDecoderConfig, Fail> {
    Ok(VideoDecoderConfig {
        codec: text(alloc, "raw-i420")?,
        width: Some(640),
        height: Some(480),
        aspect_width: None,
        aspect_height: Some(3),
    })
}

fn is_copied(config: &Config) -> Result<bool, Fail> {
    Ok(config.copy()? == *config)
}

#[test]
fn audio_decoder_configs_are_copied(rt: HostRuntime) -> Result<(), Fail> {
    let alloc = rt.alloc();
    let plain = decoder(alloc, None)?;
    assert!(rt; plain.copy()? == plain);
    let described = decoder(alloc, Some(Bytes::from_static(&[102, 76])))?;
    assert!(rt; described.copy()? == described);
    assert!(rt; is_copied(&Config::AudioDecoder(described))?);
    Ok(())
}

#[test]
fn audio_encoder_configs_are_copied(rt: HostRuntime) -> Result<(), Fail> {
    let config = encoder(rt.alloc())?;
    assert!(rt; config.copy()? == config);
    assert!(rt; is_copied(&Config::AudioEncoder(config))?);
    Ok(())
}

#[test]
fn video_decoder_configs_are_copied(rt: HostRuntime) -> Result<(), Fail> {
    let config = video(rt.alloc())?;
    assert!(rt; config.copy()? == config);
    assert!(rt; is_copied(&Config::VideoDecoder(config))?);
    assert!(rt; is_copied(&Config::Bad)?);
    Ok(())
}

fn video_encoder(
    alloc: Global,
    codec: &str,
    width: u32,
    height: u32,
) -> Result<VideoEncoderConfig, Fail> {
    Ok(VideoEncoderConfig {
        codec: text(alloc, codec)?,
        width,
        height,
        key_interval: 7,
    })
}

#[test]
fn video_encoder_configs_are_copied(rt: HostRuntime) -> Result<(), Fail> {
    let config = video_encoder(rt.alloc(), "x-raw-i422", 640, 480)?;
    assert!(rt; config.copy()? == config);
    assert!(rt; is_copied(&Config::VideoEncoder(config))?);
    Ok(())
}

#[test]
fn video_encoders_are_supported_by_codec_and_size(rt: HostRuntime) -> Result<(), Fail> {
    let rows = [
        ("x-raw-i420", 1, 1, true, true),
        ("x-raw-nv12", 16384, 16384, true, true),
        ("x-raw-nv12", 16384, 16385, true, false),
        ("x-raw-i444", 16385, 1, true, false),
        ("x-raw-i444", 0, 1, false, false),
        ("x-raw-i444", 1, 0, false, false),
        (" ", 1, 1, false, false),
        ("flac", 1, 1, true, false),
        ("x-raw-I420", 1, 1, true, false),
    ];
    for (codec, width, height, valid, supported) in rows {
        let config = Config::VideoEncoder(video_encoder(rt.alloc(), codec, width, height)?);
        assert!(rt; config.is_valid() == valid && config.supported() == supported);
    }
    Ok(())
}

#[test]
fn a_video_encoder_asks_for_a_coder_that_encodes(rt: HostRuntime) -> Result<(), Fail> {
    let rows = [
        ("x-raw-i420", CodecId::RawI420),
        ("x-raw-i422", CodecId::RawI422),
        ("x-raw-i444", CodecId::RawI444),
        ("x-raw-nv12", CodecId::RawNv12),
    ];
    for (codec, wanted) in rows {
        let config = Config::VideoEncoder(video_encoder(rt.alloc(), codec, 2, 2)?);
        let id = config.coder_id();
        assert!(rt; id.is_some_and(|id| id.role == Role::Encode && id.codec == wanted));
    }
    Ok(())
}
