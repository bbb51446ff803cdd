// The decoder of raw video, told chunks and drains.
use bytes::Bytes;
use codec_definitions::Unit;
use coder_api::{Coder, CoderFault, Input};
use raw_video::RawVideo;
use std::alloc::Global;
use std::test::Fail;
use wc_base::{NoMemory, Picture, PictureFormat, PictureShape, Text};
use wc_chunk::Chunk;
use wc_config::{CodecId, Config, Role, VideoDecoderConfig};

fn config(alloc: Global, codec: &str, width: u32, height: u32) -> Result<Config, NoMemory> {
    Ok(Config::VideoDecoder(VideoDecoderConfig {
        codec: Text::of(String::from_str(alloc, codec)?),
        width: Some(width),
        height: Some(height),
        aspect_width: None,
        aspect_height: None,
    }))
}

fn bytes_of(alloc: Global, bytes: &[u8]) -> Result<Bytes, NoMemory> {
    match Bytes::from_vec(Vec::from_slice(alloc, bytes)?) {
        Ok(bytes) => Ok(bytes),
        Err(_) => Err(NoMemory),
    }
}

/// A chunk whose time is its number times 40,000 microseconds. Its type is not looked at.
fn chunk(alloc: Global, number: i64, bytes: &[u8]) -> Result<Chunk, NoMemory> {
    Ok(Chunk {
        key: false,
        timestamp: number.wrapping_mul(40000),
        duration: Some(40000),
        bytes: bytes_of(alloc, bytes)?,
    })
}

fn picture(
    alloc: Global,
    shape: (PictureFormat, u32, u32),
    number: i64,
    bytes: &[u8],
) -> Result<Unit, NoMemory> {
    let (format, width, height) = shape;
    Ok(Unit::Image(Picture {
        shape: PictureShape {
            format,
            width,
            height,
            timestamp: number.wrapping_mul(40000),
            duration: Some(40000),
        },
        bytes: bytes_of(alloc, bytes)?,
    }))
}

/// The units of chunks, and of drains where there are no bytes.
fn units<C: Coder>(
    alloc: Global,
    coder: &mut C,
    config: &Config,
    steps: &[Option<&[u8]>],
) -> Result<Vec<Unit>, CoderFault> {
    let mut out = Vec::new(alloc);
    if !coder.supports(config) || coder.configure(alloc, config).is_err() {
        return Err(CoderFault::NoMemory);
    }
    if coder.id().role != Role::Decode {
        return Err(CoderFault::NoMemory);
    }
    for (number, step) in steps.iter().enumerate() {
        match step {
            Some(bytes) => {
                let Ok(chunk) = chunk(alloc, (number % 1000) as i64, bytes) else {
                    return Err(CoderFault::NoMemory);
                };
                if let Err(fault) = coder.push(alloc, &Input::Chunk(&chunk), &mut out) {
                    return Err(fault);
                }
            }
            None => {
                if let Err(NoMemory) = coder.drain(alloc, &mut out) {
                    return Err(CoderFault::NoMemory);
                }
            }
        }
    }
    Ok(out)
}

/// Whether these steps give these pictures, each at the number of its step.
fn gives(
    alloc: Global,
    steps: &[Option<&[u8]>],
    wanted: &[(i64, &[u8])],
) -> Result<bool, NoMemory> {
    let mut coder = RawVideo::new(PictureFormat::I420);
    let config = config(alloc, "x-raw-i420", 2, 2)?;
    let Ok(out) = units(alloc, &mut coder, &config, steps) else {
        return Ok(false);
    };
    if out.len() != wanted.len() {
        return Ok(false);
    }
    for (unit, (number, bytes)) in out.iter().zip(wanted) {
        if *unit != picture(alloc, (PictureFormat::I420, 2, 2), *number, bytes)? {
            return Ok(false);
        }
    }
    Ok(true)
}

fn is_refused(alloc: Global, steps: &[Option<&[u8]>]) -> Result<bool, NoMemory> {
    let mut coder = RawVideo::new(PictureFormat::I420);
    let config = config(alloc, "x-raw-i420", 2, 2)?;
    match units(alloc, &mut coder, &config, steps) {
        Ok(_) => Ok(false),
        Err(fault) => Ok(fault == CoderFault::Refused),
    }
}

const KEY: &[u8] = &[0, 1, 2, 3, 4, 5, 6];

const OTHER: &[u8] = &[0, 9, 8, 7, 6, 5, 255];

const ONES: &[u8] = &[1, 1, 1, 1, 1, 1, 1];

const LESS: &[u8] = &[1, 255, 255, 255, 255, 255, 255];

#[test]
fn deltas_are_added_to_the_last_picture(rt: HostRuntime) -> Result<(), Fail> {
    let rows: [(&[Option<&[u8]>], &[(i64, &[u8])]); 5] = [
        (
            &[Some(KEY), Some(ONES), None],
            &[(0, &[1, 2, 3, 4, 5, 6]), (1, &[2, 3, 4, 5, 6, 7])],
        ),
        (
            &[Some(KEY), Some(ONES), Some(ONES)],
            &[
                (0, &[1, 2, 3, 4, 5, 6]),
                (1, &[2, 3, 4, 5, 6, 7]),
                (2, &[3, 4, 5, 6, 7, 8]),
            ],
        ),
        (
            &[Some(KEY), Some(LESS), Some(LESS)],
            &[
                (0, &[1, 2, 3, 4, 5, 6]),
                (1, &[0, 1, 2, 3, 4, 5]),
                (2, &[255, 0, 1, 2, 3, 4]),
            ],
        ),
        (
            &[Some(KEY), Some(OTHER), Some(ONES)],
            &[
                (0, &[1, 2, 3, 4, 5, 6]),
                (1, &[9, 8, 7, 6, 5, 255]),
                (2, &[10, 9, 8, 7, 6, 0]),
            ],
        ),
        (&[None, None], &[]),
    ];
    for (steps, wanted) in rows {
        assert!(rt; gives(rt.alloc(), steps, wanted)?);
    }
    Ok(())
}

#[test]
fn other_chunks_are_refused(rt: HostRuntime) -> Result<(), Fail> {
    let rows: [&[Option<&[u8]>]; 8] = [
        &[Some(&[])],
        &[Some(&[0, 1])],
        &[Some(&[2, 1, 2, 3, 4, 5, 6])],
        &[Some(&KEY[..6])],
        &[Some(&[0, 1, 2, 3, 4, 5, 6, 7])],
        &[Some(ONES)],
        &[Some(KEY), None, Some(ONES)],
        &[Some(KEY), Some(&ONES[..6])],
    ];
    for steps in rows {
        assert!(rt; is_refused(rt.alloc(), steps)?);
    }
    Ok(())
}

/// Whether a picture of 3 by 3 pixels has so many bytes behind the first, and no more or fewer.
fn needs(alloc: Global, format: PictureFormat, codec: &str, size: usize) -> Result<bool, NoMemory> {
    let zeros = [0_u8; 64];
    let mut coder = RawVideo::new(format);
    let config = config(alloc, codec, 3, 3)?;
    if size < 1 || size > 60 {
        return Ok(false);
    }
    let whole = units(alloc, &mut coder, &config, &[Some(&zeros[..size + 1])]);
    let short = units(alloc, &mut coder, &config, &[Some(&zeros[..size])]);
    let long = units(alloc, &mut coder, &config, &[Some(&zeros[..size + 2])]);
    Ok(
        whole.is_ok()
            && matches!(short, Err(CoderFault::Refused))
            && matches!(long, Err(CoderFault::Refused)),
    )
}

#[test]
fn chunks_have_the_bytes_of_their_format(rt: HostRuntime) -> Result<(), Fail> {
    let rows = [
        (PictureFormat::I420, "x-raw-i420", 17),
        (PictureFormat::I422, "x-raw-i422", 21),
        (PictureFormat::I444, "x-raw-i444", 27),
        (PictureFormat::Nv12, "x-raw-nv12", 17),
    ];
    for (format, codec, size) in rows {
        assert!(rt; needs(rt.alloc(), format, codec, size)?);
    }
    Ok(())
}

#[test]
fn a_config_of_its_format_is_served(rt: HostRuntime) -> Result<(), Fail> {
    let alloc = rt.alloc();
    let mut coder = RawVideo::new(PictureFormat::Nv12);
    assert!(rt; coder.id().role == Role::Decode && coder.id().codec == CodecId::RawNv12);
    assert!(rt; coder.supports(&config(alloc, "x-raw-nv12", 2, 2)?));
    assert!(rt; !coder.supports(&config(alloc, "x-raw-i420", 2, 2)?));
    assert!(rt; !coder.supports(&config(alloc, "x-raw-nv12", 2, 16385)?));
    let served = config(alloc, "x-raw-nv12", 2, 2)?;
    assert!(rt; coder.supports(&served) && coder.configure(alloc, &served).is_ok());
    coder.stop();
    Ok(())
}
