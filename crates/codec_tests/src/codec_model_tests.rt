use bytes::Bytes;
use codec_model::{Call, Handed, HeldMedium, MediaShape, Pair};
use std::alloc::Global;
use std::test::Fail;
use wc_base::{SampleFormat, SoundShape, Text};
use wc_chunk::Chunk;
use wc_config::{AudioDecoderConfig, Config};

fn config(alloc: Global) -> Result<Config, Fail> {
    Ok(Config::AudioDecoder(AudioDecoderConfig {
        codec: Text::of(String::from_str(alloc, "pcm-s16")?),
        rate: 8000,
        channels: 1,
        description: None,
    }))
}

fn chunk(alloc: Global) -> Result<Chunk, Fail> {
    Ok(Chunk {
        key: true,
        timestamp: 5,
        duration: None,
        bytes: Bytes::copy_from_slice(alloc, &[1, 0, 2, 0])?,
    })
}

fn sound(alloc: Global) -> Result<HeldMedium, Fail> {
    Ok(HeldMedium {
        shape: MediaShape::Sound(SoundShape {
            format: SampleFormat::S16,
            rate: 8000,
            channels: 1,
            frames: 2,
            timestamp: 5,
        }),
        bytes: Bytes::copy_from_slice(alloc, &[1, 0, 2, 0])?,
        pair: Pair {
            resource: 3,
            reference: 4,
        },
    })
}

// Memory suffices for a copy of the call, and it is the same.
fn is_copied(call: &Call) -> bool {
    match call.copy() {
        Ok(copy) => copy == *call,
        Err(_) => false,
    }
}

#[test]
fn calls_are_copied(rt: HostRuntime) -> Result<(), Fail> {
    let alloc = rt.alloc();
    let calls = vec![in alloc;
        Call::Configure(config(alloc)?),
        Call::Decode(chunk(alloc)?),
        Call::Encode(Handed::Cloned(sound(alloc)?)),
        Call::Flush,
    ]?;
    for call in &calls {
        assert!(rt; is_copied(call));
    }
    Ok(())
}

#[test]
fn samples_are_copied_with_their_numbers(rt: HostRuntime) -> Result<(), Fail> {
    let alloc = rt.alloc();
    assert!(rt; sound(alloc)?.copy()? == sound(alloc)?);
    Ok(())
}
