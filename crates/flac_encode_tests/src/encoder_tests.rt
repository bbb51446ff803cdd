// The encoder, told commands.
ghost use Rattle.std.specs.Prelude.{OnOk};
ghost use Rattle.coder_api.specs.Meaning.{IsConfigured};

use bytes::Bytes;
use codec_definitions::Unit;
use coder_api::{Coder, CoderFault, Input};
use flac_encode::FlacEncoder;
use std::alloc::Global;
use std::test::Fail;
use wc_base::{NoMemory, SampleFormat, SoundShape, Text};
use wc_chunk::Chunk;
use wc_config::{
    AudioDecoderConfig, AudioEncoderConfig, CodecId, Config, Role, StreamInfo, read_streaminfo,
};

const FIRST: [u8; 10] = [123, 148, 148, 125, 143, 161, 156, 169, 169, 139];

const SECOND: [u8; 12] = [176, 141, 174, 163, 185, 167, 168, 189, 196, 200, 198, 196];

/// The frame of the first 16 samples, with the number 0.
const WHOLE: [u8; 26] = [
    0xff, 0xf8, 0x64, 0x02, 0x00, 0x0f, 0x49, 0x12, 0xfb, 0x01, 0x59, 0x40, 0xb5, 0x22, 0x4a, 0x7a,
    0x81, 0xd9, 0x51, 0x29, 0x16, 0xab, 0x11, 0x80, 0x84, 0x11,
];

/// The frame of the last 6, with the number 1.
const REST: [u8; 16] = [
    0xff, 0xf8, 0x64, 0x02, 0x01, 0x05, 0x6a, 0x12, 0x28, 0x00, 0xc1, 0x4e, 0x45, 0xd8, 0x10, 0xd0,
];

fn config(alloc: Global) -> Result<Config, Fail> {
    Ok(Config::AudioEncoder(AudioEncoderConfig {
        codec: Text::of(String::from_str(alloc, "flac")?),
        rate: 8000,
        channels: 1,
        block_size: 16,
        level: 5,
        depth: 8,
    }))
}

fn shape(rate: u32, frames: u32, timestamp: i64) -> SoundShape {
    SoundShape {
        format: SampleFormat::U8,
        rate,
        channels: 1,
        frames,
        timestamp,
    }
}

fn unit(alloc: Global, timestamp: i64, duration: u64, bytes: &[u8]) -> Result<Unit, Fail> {
    Ok(Unit::Coded {
        chunk: Chunk {
            key: true,
            timestamp,
            duration: Some(duration),
            bytes: Bytes::from_vec(Vec::from_slice(alloc, bytes)?)?,
        },
        config: None,
    })
}

/// Pushes mono samples, and counts all units.
fn push_next(
    alloc: Global,
    encoder: &mut FlacEncoder,
    shape: &SoundShape,
    bytes: &[u8],
    out: &mut Vec<Unit>,
) -> Result<usize, CoderFault>
    requires configured { IsConfigured encoder.old.meaning }
    ensures configured { OnOk result (IsConfigured encoder.new.meaning) }
{
    encoder.push(alloc, &Input::Sound(shape, bytes), out)?;
    Ok(out.len())
}

/// How many units two inputs and a drain have given, one after another; none where the config is not served.
fn pushed(
    alloc: Global,
    config: &Config,
    rate: u32,
    out: &mut Vec<Unit>,
) -> Result<Option<[usize; 3]>, CoderFault> {
    let mut encoder = FlacEncoder::new();
    if !encoder.supports(config) {
        return Ok(None);
    }
    match encoder.configure(alloc, config) {
        Ok(()) => {}
        Err(_) => return Err(CoderFault::NoMemory),
    }
    let first = push_next(alloc, &mut encoder, &shape(8000, 10, 0), &FIRST, out)?;
    let second = push_next(alloc, &mut encoder, &shape(rate, 12, 5000), &SECOND, out)?;
    match encoder.drain(alloc, out) {
        Ok(()) => Ok(Some([first, second, out.len()])),
        Err(_) => Err(CoderFault::NoMemory),
    }
}

/// A block of 16 frames is there with the second input, and a drain gives the other 6, which begin in that input.
#[test]
fn a_block_of_two_inputs_and_a_rest(rt: HostRuntime) -> Result<(), Fail> {
    let alloc = rt.alloc();
    let mut out = Vec::new(alloc);
    let counts = pushed(alloc, &config(alloc)?, 8000, &mut out);
    assert!(rt; counts == Ok(Some([0, 1, 2])));
    let mut wanted = Vec::new(alloc);
    wanted.push(unit(alloc, 0, 2000, &WHOLE)?)?;
    wanted.push(unit(alloc, 5750, 750, &REST)?)?;
    assert!(rt; out == wanted);
    Ok(())
}

/// Samples of another rate are refused.
#[test]
fn samples_of_another_rate(rt: HostRuntime) -> Result<(), Fail> {
    let alloc = rt.alloc();
    let mut out = Vec::new(alloc);
    let counts = pushed(alloc, &config(alloc)?, 8001, &mut out);
    assert!(rt; counts == Err(CoderFault::Refused));
    assert!(rt; out.is_empty());
    Ok(())
}

/// A config of 44100 frames a second, 2 channels and 16 bits.
fn stereo(alloc: Global, block_size: u32) -> Result<Config, Fail> {
    stereo_of(alloc, "flac", block_size)
}

fn stereo_of(alloc: Global, codec: &str, block_size: u32) -> Result<Config, Fail> {
    Ok(Config::AudioEncoder(AudioEncoderConfig {
        codec: Text::of(String::from_str(alloc, codec)?),
        rate: 44100,
        channels: 2,
        block_size,
        level: 5,
        depth: 16,
    }))
}

/// The config with which an encoder's outputs are decoded; none where its own is not served.
fn setup_of(alloc: Global, config: &Config) -> Result<Option<AudioDecoderConfig>, NoMemory> {
    let mut encoder = FlacEncoder::new();
    if !encoder.supports(config) {
        return Ok(None);
    }
    encoder.configure(alloc, config)?;
    encoder.setup(alloc)
}

/// Descriptions of such a stream, with blocks of 4096 frames and of 16: the mark, the header of the last block, of type 0 with
/// 34 bytes, and then 16 bits for each block size, 24 for each frame size, 20 for the rate (0x0ac44), 3 for the channels less
/// 1 (1), 5 for the depth less 1 (15) and 36 for the total, and the sum.
const BLOCKS_OF_4096: [u8; 42] = [
    0x66, 0x4c, 0x61, 0x43, 0x80, 0x00, 0x00, 0x22, 0x10, 0x00, 0x10, 0x00, 0x00, 0x00, 0x00, 0x00,
    0x00, 0x00, 0x0a, 0xc4, 0x42, 0xf0, 0x00, 0x00, 0x00, 0x00, 0x00, 0x00, 0x00, 0x00, 0x00, 0x00,
    0x00, 0x00, 0x00, 0x00, 0x00, 0x00, 0x00, 0x00, 0x00, 0x00,
];

const BLOCKS_OF_16: [u8; 42] = [
    0x66, 0x4c, 0x61, 0x43, 0x80, 0x00, 0x00, 0x22, 0x00, 0x10, 0x00, 0x10, 0x00, 0x00, 0x00, 0x00,
    0x00, 0x00, 0x0a, 0xc4, 0x42, 0xf0, 0x00, 0x00, 0x00, 0x00, 0x00, 0x00, 0x00, 0x00, 0x00, 0x00,
    0x00, 0x00, 0x00, 0x00, 0x00, 0x00, 0x00, 0x00, 0x00, 0x00,
];

fn stream(block: u32) -> StreamInfo {
    StreamInfo {
        min_block: block,
        max_block: block,
        min_frame: 0,
        max_frame: 0,
        rate: 44100,
        channels: 2,
        depth: 16,
        total: 0,
        md5: [0; 16],
    }
}

/// A block size of 0 is taken as 4096.
#[test]
fn outputs_are_decoded_with_a_description(rt: HostRuntime) -> Result<(), Fail> {
    let alloc = rt.alloc();
    for (block_size, block, description) in [(0, 4096, &BLOCKS_OF_4096), (16, 16, &BLOCKS_OF_16)] {
        let setup = setup_of(alloc, &stereo(alloc, block_size)?)?.expect(&rt, "a served config");
        let wanted = AudioDecoderConfig {
            codec: Text::of(String::from_str(alloc, "flac")?),
            rate: 44100,
            channels: 2,
            description: Some(Bytes::from_vec(Vec::from_slice(alloc, description)?)?),
        };
        assert!(rt; setup == wanted);
        assert!(rt; read_streaminfo(description) == Some(stream(block)));
    }
    Ok(())
}

#[test]
fn configs_of_encoders_of_flac_alone_are_served(rt: HostRuntime) -> Result<(), Fail> {
    let alloc = rt.alloc();
    let encoder = FlacEncoder::new();
    let own = stereo(alloc, 16)?;
    let short = stereo(alloc, 15)?;
    let other = stereo_of(alloc, "pcm-s16", 16)?;
    let decoder = Config::AudioDecoder(AudioDecoderConfig {
        codec: Text::of(String::from_str(alloc, "flac")?),
        rate: 44100,
        channels: 2,
        description: Some(Bytes::from_vec(Vec::from_slice(alloc, &BLOCKS_OF_16)?)?),
    });
    assert!(rt; encoder.id().role == Role::Encode && encoder.id().codec == CodecId::Flac);
    assert!(rt; encoder.supports(&own));
    assert!(rt; !encoder.supports(&short));
    assert!(rt; !encoder.supports(&other));
    assert!(rt; decoder.supported() && !encoder.supports(&decoder));
    assert!(rt; !encoder.supports(&Config::Bad));
    Ok(())
}
