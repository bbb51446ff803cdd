// The decoder, told commands.
use crate::row_tests::{FIRST, LONGER, MIDDLE};
use bytes::Bytes;
use codec_definitions::Unit;
use coder_api::{Coder, CoderFault, Input};
use flac_decode::FlacDecoder;
use std::alloc::Global;
use std::test::Fail;
use wc_base::{SampleFormat, Samples, SoundShape, Text};
use wc_chunk::Chunk;
use wc_config::{AudioDecoderConfig, CodecId, Config, Role};

/// The head of the first example file of RFC 9639 (appendix D.1).
const DESCRIPTION: [u8; 42] = [
    0x66, 0x4c, 0x61, 0x43, 0x80, 0x00, 0x00, 0x22, 0x10, 0x00, 0x10, 0x00, 0x00, 0x00, 0x0f, 0x00,
    0x00, 0x0f, 0x0a, 0xc4, 0x42, 0xf0, 0x00, 0x00, 0x00, 0x01, 0x3e, 0x84, 0xb4, 0x18, 0x07, 0xdc,
    0x69, 0x03, 0x07, 0x58, 0x6a, 0x3d, 0xad, 0x1a, 0x2e, 0x0f,
];

fn config(alloc: Global, description: Option<Bytes>) -> Result<Config, Fail> {
    Ok(Config::AudioDecoder(AudioDecoderConfig {
        codec: Text::of(String::from_str(alloc, "flac")?),
        rate: 8000,
        channels: 1,
        description,
    }))
}

fn chunk(alloc: Global, timestamp: i64, bytes: &[u8]) -> Result<Chunk, Fail> {
    Ok(Chunk {
        key: true,
        timestamp,
        duration: None,
        bytes: Bytes::from_vec(Vec::from_slice(alloc, bytes)?)?,
    })
}

fn sound(alloc: Global, frames: u32, timestamp: i64, bytes: &[u8]) -> Result<Unit, Fail> {
    Ok(Unit::Sound(Samples {
        shape: SoundShape {
            format: SampleFormat::S16,
            rate: 44100,
            channels: 2,
            frames,
            timestamp,
        },
        bytes: Bytes::from_vec(Vec::from_slice(alloc, bytes)?)?,
    }))
}

#[test]
fn a_config_is_served_that_describes_a_stream(rt: HostRuntime) -> Result<(), Fail> {
    let alloc = rt.alloc();
    let coder = FlacDecoder::new(alloc);
    assert!(rt; coder.id().role == Role::Decode && coder.id().codec == CodecId::Flac);
    assert!(rt; coder.supports(&config(alloc, Some(Bytes::from_static(&DESCRIPTION)))?));
    assert!(rt; !coder.supports(&config(alloc, None)?));
    assert!(rt; !coder.supports(&config(alloc, Some(Bytes::from_static(&DESCRIPTION[..41])))?));
    Ok(())
}

/// The units of a chunk, and then of a drain; nothing where the config is not served, and a fault where the chunk is refused.
fn units<C: Coder>(
    alloc: Global,
    coder: &mut C,
    config: &Config,
    chunk: &Chunk,
) -> Result<Option<Vec<Unit>>, CoderFault> {
    let mut out = Vec::new(alloc);
    if !coder.supports(config) {
        return Ok(None);
    }
    if let Err(_) = coder.configure(alloc, config) {
        return Err(CoderFault::NoMemory);
    }
    let pushed = match coder.id().role {
        Role::Decode => coder.push(alloc, &Input::Chunk(chunk), &mut out),
        Role::Encode => Err(CoderFault::Refused),
    };
    if let Err(fault) = pushed {
        return Err(fault);
    }
    match coder.drain(alloc, &mut out) {
        Ok(()) => Ok(Some(out)),
        Err(_) => Err(CoderFault::NoMemory),
    }
}

#[test]
fn each_chunk_gives_the_samples_of_its_frame(rt: HostRuntime) -> Result<(), Fail> {
    let alloc = rt.alloc();
    let mut coder = FlacDecoder::new(alloc);
    let config = config(alloc, Some(Bytes::from_static(&DESCRIPTION)))?;
    let first = sound(alloc, 1, 5, &[0xf4, 0x63, 0xb0, 0x28])?;
    let second = sound(alloc, 2, -7, &[3, 0, 0, 0, 3, 0, 0, 0])?;
    for (timestamp, bytes, unit) in [
        (5, FIRST.as_slice(), &first),
        (-7, MIDDLE.as_slice(), &second),
    ] {
        let chunk = chunk(alloc, timestamp, bytes)?;
        let out = units(alloc, &mut coder, &config, &chunk)
            .expect(&rt, "no fault")
            .expect(&rt, "a served config");
        assert!(rt; out.len() == 1);
        assert!(rt; out[0] == *unit);
    }
    let longer = chunk(alloc, 5, &LONGER)?;
    let fault = units(alloc, &mut coder, &config, &longer);
    assert!(rt; matches!(fault, Err(CoderFault::Refused)));
    coder.stop();
    Ok(())
}
