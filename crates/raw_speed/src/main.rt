//! Measures delta chunks of raw video: `raw_speed decode WIDTH HEIGHT ROUNDS` gives the decoder a key chunk of
//! an I420 picture and then so many delta chunks, and prints how many bytes the pictures have. With `encode` it gives
//! the encoder a picture and then so many more, and prints how many bytes the chunks have.
#![tactic(auto)]

use bytes::Bytes;
use coder_api::{Coder, Input, Unit};
use raw_video::{RawVideo, RawVideoEncoder};
use std::alloc::Global;
use std::process::ExitCode;
use std::rt::Env;
use std::{env, io};
use wc_base::{NoMemory, PictureFormat, PictureShape, Text};
use wc_chunk::Chunk;
use wc_config::{Config, Role, VideoDecoderConfig, VideoEncoderConfig};

fn config(alloc: Global, width: u32, height: u32) -> Result<Config, NoMemory> {
    Ok(Config::VideoDecoder(VideoDecoderConfig {
        codec: Text::of(String::from_str(alloc, "x-raw-i420")?),
        width: Some(width),
        height: Some(height),
        aspect_width: None,
        aspect_height: None,
    }))
}

fn encoder_config(alloc: Global, width: u32, height: u32) -> Result<Config, NoMemory> {
    Ok(Config::VideoEncoder(VideoEncoderConfig {
        codec: Text::of(String::from_str(alloc, "x-raw-i420")?),
        width,
        height,
        key_interval: 0,
    }))
}

/// So many bytes 0x5A behind this one.
fn filled(alloc: Global, first: u8, size: usize) -> Result<Bytes, NoMemory> {
    let mut bytes = vec![in alloc; 0x5A; size]?;
    if let Some(place) = bytes.first_mut() {
        *place = first;
    }
    match Bytes::from_vec(bytes) {
        Ok(bytes) => Ok(bytes),
        Err(_) => Err(NoMemory),
    }
}

/// A chunk of a kind, whose other bytes are 0x5A.
fn chunk(alloc: Global, kind: u8, size: usize) -> Result<Chunk, NoMemory> {
    Ok(Chunk {
        key: kind == 0,
        timestamp: 0,
        duration: None,
        bytes: filled(alloc, kind, size)?,
    })
}

/// The bytes of a picture or of a chunk, which is let go.
fn bytes_in(out: &mut Vec<Unit>) -> u64 {
    match out.pop() {
        Some(Unit::Image(p)) => p.bytes.len() as u64,
        Some(
            Unit::Coded {
                chunk,
                config: _config,
            },
        ) => chunk.bytes.len() as u64,
        _ => 0,
    }
}

fn decode<C: Coder>(
    alloc: Global,
    coder: &mut C,
    config: &Config,
    chunks: &[Chunk; 2],
    rounds: u32,
) -> Option<u64> {
    let mut out = Vec::new(alloc);
    let mut sum: u64 = 0;
    if !coder.supports(config) || coder.configure(alloc, config).is_err() {
        return None;
    }
    if coder.id().role != Role::Decode {
        return None;
    }
    for round in 0..rounds.saturating_add(1) {
        let chunk = if round == 0 { &chunks[0] } else { &chunks[1] };
        if let Err(_) = coder.push(alloc, &Input::Chunk(chunk), &mut out) {
            return None;
        }
        sum = sum.wrapping_add(bytes_in(&mut out));
    }
    Some(sum)
}

fn encode<C: Coder>(
    alloc: Global,
    coder: &mut C,
    config: &Config,
    shape: &PictureShape,
    pictures: &[Bytes; 2],
    rounds: u32,
) -> Option<u64> {
    let mut out = Vec::new(alloc);
    let mut sum: u64 = 0;
    if !coder.supports(config) || coder.configure(alloc, config).is_err() {
        return None;
    }
    if coder.id().role != Role::Encode {
        return None;
    }
    for round in 0..rounds.saturating_add(1) {
        let picture = if round % 2 == 0 {
            &pictures[0]
        } else {
            &pictures[1]
        };
        if let Err(_) = coder.push(alloc, &Input::Image(shape, picture), &mut out) {
            return None;
        }
        sum = sum.wrapping_add(bytes_in(&mut out));
    }
    Some(sum)
}

/// How many bytes an I420 picture has.
fn picture_bytes(width: u32, height: u32) -> usize {
    let half = (width as usize / 2).saturating_mul(height as usize / 2);
    let pixels = (width as usize).saturating_mul(height as usize);
    pixels.saturating_add(half.saturating_mul(2))
}

fn run_decoder(alloc: Global, width: u32, height: u32, rounds: u32) -> Option<u64> {
    let size = picture_bytes(width, height).saturating_add(1);
    let mut coder = RawVideo::new(PictureFormat::I420);
    let config = config(alloc, width, height).ok()?;
    let key = chunk(alloc, 0, size).ok()?;
    let delta = chunk(alloc, 1, size).ok()?;
    decode(alloc, &mut coder, &config, &[key, delta], rounds)
}

fn run_encoder(alloc: Global, width: u32, height: u32, rounds: u32) -> Option<u64> {
    let size = picture_bytes(width, height);
    let shape = PictureShape {
        format: PictureFormat::I420,
        width,
        height,
        timestamp: 0,
        duration: None,
    };
    let mut coder = RawVideoEncoder::new(PictureFormat::I420);
    let config = encoder_config(alloc, width, height).ok()?;
    let first = filled(alloc, 0, size).ok()?;
    let second = filled(alloc, 1, size).ok()?;
    encode(alloc, &mut coder, &config, &shape, &[first, second], rounds)
}

fn words(rt: &(impl Env + Alloc<A = Global>)) -> io::Result<Vec<String>> {
    let mut words = Vec::new(rt.alloc());
    for word in env::args(rt)?.skip(1) {
        words.push(word)?;
    }
    Ok(words)
}

fn measure(alloc: Global, words: &[String]) -> Option<u64> {
    match words {
        [way, width, height, rounds] => {
            let width: u32 = width.as_str().parse().ok()?;
            let height: u32 = height.as_str().parse().ok()?;
            let rounds: u32 = rounds.as_str().parse().ok()?;
            if way.as_str() == "encode" {
                run_encoder(alloc, width, height, rounds)
            } else {
                run_decoder(alloc, width, height, rounds)
            }
        }
        _ => None,
    }
}

fn main(rt: HostRuntime) -> ExitCode {
    let Ok(words) = words(&rt) else {
        return ExitCode::from(1);
    };
    match measure(rt.alloc(), words.as_slice()) {
        Some(sum) => match println!(rt; "{sum}") {
            Ok(()) => ExitCode::from(0),
            Err(_) => ExitCode::from(5),
        },
        None => ExitCode::from(2),
    }
}
