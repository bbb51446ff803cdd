// Copies with ample memory.
use bytes::Bytes;
use coder_api::Unit;
use std::test::Fail;
use wc_base::{Picture, PictureFormat, PictureShape, SampleFormat, Samples, SoundShape, Text};
use wc_chunk::Chunk;
use wc_config::AudioDecoderConfig;

#[test]
fn units_are_copied(rt: HostRuntime) -> Result<(), Fail> {
    let alloc = rt.alloc();
    let bytes = Bytes::from_vec(vec![in alloc; 1, 2, 3]?)?;
    let sound = Samples {
        shape: SoundShape {
            format: SampleFormat::U8,
            rate: 8000,
            channels: 1,
            frames: 3,
            timestamp: -1,
        },
        bytes: bytes.clone()?,
    };
    let picture = Picture {
        shape: PictureShape {
            format: PictureFormat::I444,
            width: 1,
            height: 1,
            timestamp: 5,
            duration: Some(6),
        },
        bytes: bytes.clone()?,
    };
    let chunk = Chunk {
        key: false,
        timestamp: 8,
        duration: None,
        bytes,
    };
    let config = AudioDecoderConfig {
        codec: Text::of(String::from_str(alloc, "alaw")?),
        rate: 8000,
        channels: 1,
        description: None,
    };
    let plain = Unit::Coded {
        chunk: chunk.copy()?,
        config: None,
    };
    let coded = Unit::Coded {
        chunk,
        config: Some(config),
    };
    for unit in &[Unit::Sound(sound), Unit::Image(picture), plain, coded] {
        assert!(rt; unit.copy()? == *unit);
    }
    Ok(())
}
