// The encoder of raw video, told pictures and drains, and a decoder that is given its chunks.
use bytes::Bytes;
use codec_definitions::Unit;
use coder_api::{Coder, CoderFault, Input};
use raw_video::{RawVideo, RawVideoEncoder};
use std::alloc::Global;
use std::test::Fail;
use wc_base::{NoMemory, Picture, PictureFormat, PictureShape, Text};
use wc_chunk::Chunk;
use wc_config::{CodecId, Config, Role, VideoDecoderConfig, VideoEncoderConfig};

fn encoder_config(
    alloc: Global,
    codec: &str,
    size: (u32, u32),
    key_interval: u32,
) -> Result<Config, NoMemory> {
    Ok(Config::VideoEncoder(VideoEncoderConfig {
        codec: Text::of(String::from_str(alloc, codec)?),
        width: size.0,
        height: size.1,
        key_interval,
    }))
}

fn decoder_config(alloc: Global, codec: &str, size: (u32, u32)) -> Result<Config, NoMemory> {
    Ok(Config::VideoDecoder(VideoDecoderConfig {
        codec: Text::of(String::from_str(alloc, codec)?),
        width: Some(size.0),
        height: Some(size.1),
        aspect_width: None,
        aspect_height: None,
    }))
}

fn bytes_of(alloc: Global, bytes: &[u8]) -> Result<Bytes, NoMemory> {
    match Bytes::from_vec(Vec::from_slice(alloc, bytes)?) {
        Ok(bytes) => Ok(bytes),
        Err(_) => Err(NoMemory),
    }
}

fn shape_at(number: i64) -> PictureShape {
    PictureShape {
        format: PictureFormat::I420,
        width: 2,
        height: 2,
        timestamp: number.wrapping_mul(40000),
        duration: None,
    }
}

/// The units of pictures of 2 by 2 pixels, and of drains where there are no bytes. The time of each is its number times
/// 40,000 microseconds.
fn units<C: Coder>(
    alloc: Global,
    coder: &mut C,
    config: &Config,
    steps: &[Option<&[u8]>],
) -> Result<Vec<Unit>, CoderFault> {
    let mut out = Vec::new(alloc);
    if !coder.supports(config) || coder.configure(alloc, config).is_err() {
        return Err(CoderFault::NoMemory);
    }
    if coder.id().role != Role::Encode {
        return Err(CoderFault::NoMemory);
    }
    for (number, step) in steps.iter().enumerate() {
        match step {
            Some(bytes) => {
                let shape = shape_at((number % 1000) as i64);
                let Ok(bytes) = bytes_of(alloc, bytes) else {
                    return Err(CoderFault::NoMemory);
                };
                if let Err(fault) = coder.push(alloc, &Input::Image(&shape, &bytes), &mut out) {
                    return Err(fault);
                }
            }
            None => {
                if let Err(NoMemory) = coder.drain(alloc, &mut out) {
                    return Err(CoderFault::NoMemory);
                }
            }
        }
    }
    Ok(out)
}

/// The units of pictures and drains, with a key interval.
fn coded(
    alloc: Global,
    key_interval: u32,
    steps: &[Option<&[u8]>],
) -> Result<Vec<Unit>, CoderFault> {
    let mut coder = RawVideoEncoder::new(PictureFormat::I420);
    match encoder_config(alloc, "x-raw-i420", (2, 2), key_interval) {
        Ok(config) => units(alloc, &mut coder, &config, steps),
        Err(NoMemory) => Err(CoderFault::NoMemory),
    }
}

fn is_chunk(unit: &Unit, number: i64, bytes: &[u8]) -> bool {
    match unit {
        Unit::Coded { chunk, config } => {
            config.is_none()
                && chunk.key == (bytes.first() == Some(&0))
                && chunk.timestamp == number.wrapping_mul(40000)
                && chunk.duration.is_none()
                && chunk.bytes.as_slice() == bytes
        }
        _ => false,
    }
}

/// Whether these pictures and drains give these chunks, each at the number of its step.
fn gives(
    alloc: Global,
    key_interval: u32,
    steps: &[Option<&[u8]>],
    wanted: &[(i64, &[u8])],
) -> bool {
    let Ok(out) = coded(alloc, key_interval, steps) else {
        return false;
    };
    if out.len() != wanted.len() {
        return false;
    }
    for (unit, (number, bytes)) in out.iter().zip(wanted) {
        if !is_chunk(unit, *number, bytes) {
            return false;
        }
    }
    true
}

const FIRST: &[u8] = &[1, 2, 3, 4, 5, 6];

const SECOND: &[u8] = &[2, 3, 4, 5, 6, 7];

const THIRD: &[u8] = &[0, 3, 255, 5, 6, 9];

const FIRST_KEY: &[u8] = &[0, 1, 2, 3, 4, 5, 6];

const SECOND_KEY: &[u8] = &[0, 2, 3, 4, 5, 6, 7];

const THIRD_KEY: &[u8] = &[0, 0, 3, 255, 5, 6, 9];

const ONES: &[u8] = &[1, 1, 1, 1, 1, 1, 1];

const LESS: &[u8] = &[1, 255, 255, 255, 255, 255, 255];

const TO_THIRD: &[u8] = &[1, 254, 0, 251, 0, 0, 2];

#[test]
fn the_first_picture_is_a_key_chunk(rt: HostRuntime) -> Result<(), Fail> {
    let rows: [(u32, &[Option<&[u8]>], &[(i64, &[u8])]); 4] = [
        (
            0,
            &[Some(FIRST), Some(SECOND)],
            &[(0, FIRST_KEY), (1, ONES)],
        ),
        (
            1,
            &[Some(FIRST), Some(SECOND)],
            &[(0, FIRST_KEY), (1, SECOND_KEY)],
        ),
        (
            0,
            &[None, Some(SECOND), Some(FIRST), None],
            &[(1, SECOND_KEY), (2, LESS)],
        ),
        (0, &[None, None], &[]),
    ];
    for (key_interval, steps, wanted) in rows {
        assert!(rt; gives(rt.alloc(), key_interval, steps, wanted));
    }
    Ok(())
}

const FIVE: &[Option<&[u8]>] = &[
    Some(FIRST),
    Some(SECOND),
    Some(THIRD),
    None,
    Some(SECOND),
    Some(FIRST),
];

#[test]
fn key_chunks_come_by_the_interval(rt: HostRuntime) -> Result<(), Fail> {
    let rows: [(u32, &[(i64, &[u8])]); 3] = [
        (
            2,
            &[
                (0, FIRST_KEY),
                (1, ONES),
                (2, THIRD_KEY),
                (4, SECOND_KEY),
                (5, LESS),
            ],
        ),
        (
            3,
            &[
                (0, FIRST_KEY),
                (1, ONES),
                (2, TO_THIRD),
                (4, SECOND_KEY),
                (5, LESS),
            ],
        ),
        (
            1,
            &[
                (0, FIRST_KEY),
                (1, SECOND_KEY),
                (2, THIRD_KEY),
                (4, SECOND_KEY),
                (5, FIRST_KEY),
            ],
        ),
    ];
    for (key_interval, wanted) in rows {
        assert!(rt; gives(rt.alloc(), key_interval, FIVE, wanted));
    }
    Ok(())
}

/// Whether a picture of this shape and with these bytes is refused.
fn is_refused(alloc: Global, shape: &PictureShape, bytes: &[u8]) -> Result<bool, NoMemory> {
    let mut coder = RawVideoEncoder::new(PictureFormat::I420);
    let mut out = Vec::new(alloc);
    let config = encoder_config(alloc, "x-raw-i420", (2, 2), 0)?;
    let bytes = bytes_of(alloc, bytes)?;
    if !coder.supports(&config) || coder.configure(alloc, &config).is_err() {
        return Ok(false);
    }
    if coder.id().role != Role::Encode {
        return Ok(false);
    }
    let answer = coder.push(alloc, &Input::Image(shape, &bytes), &mut out);
    Ok(matches!(answer, Err(CoderFault::Refused)) && out.is_empty())
}

#[test]
fn other_pictures_are_refused(rt: HostRuntime) -> Result<(), Fail> {
    let alloc = rt.alloc();
    let shape = shape_at(0);
    let other = PictureShape {
        format: PictureFormat::Nv12,
        ..shape
    };
    let wide = PictureShape { width: 3, ..shape };
    let high = PictureShape { height: 1, ..shape };
    assert!(rt; !is_refused(alloc, &shape, FIRST)?);
    assert!(rt; is_refused(alloc, &other, FIRST)?);
    assert!(rt; is_refused(alloc, &wide, FIRST)?);
    assert!(rt; is_refused(alloc, &high, FIRST)?);
    assert!(rt; is_refused(alloc, &shape, &FIRST[..5])?);
    assert!(rt; is_refused(alloc, &shape, FIRST_KEY)?);
    Ok(())
}

/// The pictures that a decoder gives for chunks.
fn pictures<C: Coder>(
    alloc: Global,
    coder: &mut C,
    config: &Config,
    chunks: &[Unit],
) -> Result<Vec<Unit>, CoderFault> {
    let mut out = Vec::new(alloc);
    if !coder.supports(config) || coder.configure(alloc, config).is_err() {
        return Err(CoderFault::NoMemory);
    }
    if coder.id().role != Role::Decode {
        return Err(CoderFault::NoMemory);
    }
    for unit in chunks {
        let Some(chunk) = chunk_in(unit) else {
            return Err(CoderFault::Refused);
        };
        if let Err(fault) = coder.push(alloc, &Input::Chunk(chunk), &mut out) {
            return Err(fault);
        }
    }
    Ok(out)
}

fn chunk_in(unit: &Unit) -> Option<&Chunk> {
    match unit {
        Unit::Coded {
            chunk,
            config: _config,
        } => Some(chunk),
        _ => None,
    }
}

/// Whether pictures that are coded with a key interval are decoded to the same pictures.
fn come_back(alloc: Global, key_interval: u32, sent: &[Option<&[u8]>]) -> Result<bool, NoMemory> {
    let mut decoder = RawVideo::new(PictureFormat::I420);
    let config = decoder_config(alloc, "x-raw-i420", (2, 2))?;
    let Ok(chunks) = coded(alloc, key_interval, sent) else {
        return Ok(false);
    };
    let Ok(out) = pictures(alloc, &mut decoder, &config, chunks.as_slice()) else {
        return Ok(false);
    };
    if out.len() != sent.len() {
        return Ok(false);
    }
    for (number, unit) in out.iter().enumerate() {
        let wanted = Unit::Image(Picture {
            shape: shape_at((number % 1000) as i64),
            bytes: bytes_of(alloc, sent[number].unwrap_or(&[]))?,
        });
        if *unit != wanted {
            return Ok(false);
        }
    }
    Ok(true)
}

#[test]
fn pictures_come_back(rt: HostRuntime) -> Result<(), Fail> {
    let sent: [Option<&[u8]>; 5] = [
        Some(FIRST),
        Some(SECOND),
        Some(THIRD),
        Some(FIRST),
        Some(THIRD),
    ];
    for key_interval in [0, 1, 2, 3] {
        assert!(rt; come_back(rt.alloc(), key_interval, &sent)?);
    }
    Ok(())
}

#[test]
fn a_config_of_its_format_is_served(rt: HostRuntime) -> Result<(), Fail> {
    let alloc = rt.alloc();
    let mut coder = RawVideoEncoder::new(PictureFormat::I444);
    assert!(rt; coder.id().role == Role::Encode && coder.id().codec == CodecId::RawI444);
    assert!(rt; coder.supports(&encoder_config(alloc, "x-raw-i444", (2, 2), 9)?));
    assert!(rt; !coder.supports(&encoder_config(alloc, "x-raw-i420", (2, 2), 9)?));
    assert!(rt; !coder.supports(&encoder_config(alloc, "x-raw-i444", (2, 16385), 9)?));
    assert!(rt; !coder.supports(&decoder_config(alloc, "x-raw-i444", (2, 2))?));
    let served = encoder_config(alloc, "x-raw-i444", (2, 2), 9)?;
    assert!(rt; coder.supports(&served) && coder.configure(alloc, &served).is_ok());
    if coder.supports(&served) && coder.configure(alloc, &served).is_ok() {
        let setup = coder.setup(alloc)?;
        assert!(rt; setup.is_none());
    }
    coder.stop();
    Ok(())
}
