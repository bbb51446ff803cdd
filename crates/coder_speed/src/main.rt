//! Runs one coder of linear PCM or G.711 over so many mebibytes in memory, to measure what a sample costs: `coder_speed
//! CODEC decode|encode MIB` prints how many units came out, and `coder_speed CODEC make MIB` only makes the input.
#![tactic(auto)]

use bytes::Bytes;
use coder_api::{Coder, Input, Unit};
use g711::Law;
use sample_coder::{Coding, SampleCoder};
use sample_conversion::SampleSize;
use std::alloc::Global;
use std::process::ExitCode;
use std::rt::Env;
use std::{env, io};
use wc_base::{NoMemory, SampleFormat, SoundShape, Text};
use wc_chunk::Chunk;
use wc_config::{AudioDecoderConfig, AudioEncoderConfig, Config, Role};

// The sample rate of all that is measured.
const RATE: u32 = 8000;

fn decoder_config(alloc: Global, codec: &str) -> Result<Config, NoMemory> {
    Ok(Config::AudioDecoder(AudioDecoderConfig {
        codec: Text::of(String::from_str(alloc, codec)?),
        rate: RATE,
        channels: 1,
        description: None,
    }))
}

fn encoder_config(alloc: Global, codec: &str) -> Result<Config, NoMemory> {
    Ok(Config::AudioEncoder(AudioEncoderConfig {
        codec: Text::of(String::from_str(alloc, codec)?),
        rate: RATE,
        channels: 1,
        block_size: 0,
        level: 5,
        depth: 16,
    }))
}

// So many bytes in one chunk.
fn chunk_of(alloc: Global, size: usize) -> Result<Chunk, NoMemory> {
    let bytes = match Bytes::from_vec(vec![in alloc; 0x5A_u8; size]?) {
        Ok(bytes) => bytes,
        Err(_) => return Err(NoMemory),
    };
    Ok(Chunk {
        key: true,
        timestamp: 0,
        duration: None,
        bytes,
    })
}

// How many units a decoder gives for a chunk of so many bytes.
fn decode<C: Coder>(
    alloc: Global,
    mut coder: C,
    codec: &str,
    size: usize,
) -> Result<Option<usize>, NoMemory> {
    let config = decoder_config(alloc, codec)?;
    let chunk = chunk_of(alloc, size)?;
    if coder.id().role != Role::Decode || !coder.supports(&config) {
        return Ok(None);
    }
    coder.configure(alloc, &config)?;
    let mut out: Vec<Unit> = Vec::new(alloc);
    match coder.push(alloc, &Input::Chunk(&chunk), &mut out) {
        Ok(()) => Ok(Some(out.len())),
        Err(_) => Ok(None),
    }
}

// How many units an encoder gives for so many bytes of samples of 16 bits.
fn encode<C: Coder>(
    alloc: Global,
    mut coder: C,
    codec: &str,
    size: usize,
) -> Result<Option<usize>, NoMemory> {
    let config = encoder_config(alloc, codec)?;
    let bytes = vec![in alloc; 0x5A_u8; size]?;
    let Ok(frames) = u32::try_from(size / 2) else {
        return Ok(None);
    };
    let shape = SoundShape {
        format: SampleFormat::S16,
        rate: RATE,
        channels: 1,
        frames,
        timestamp: 0,
    };
    if coder.id().role != Role::Encode || !coder.supports(&config) {
        return Ok(None);
    }
    coder.configure(alloc, &config)?;
    let mut out: Vec<Unit> = Vec::new(alloc);
    match coder.push(alloc, &Input::Sound(&shape, &bytes), &mut out) {
        Ok(()) => Ok(Some(out.len())),
        Err(_) => Ok(None),
    }
}

// The codec of a word, if it is measured.
fn coding_of(word: &str) -> Option<Coding> {
    match word {
        "pcm-s16" => Some(Coding::Pcm(SampleSize::Two)),
        "ulaw" => Some(Coding::G711(Law::Ulaw)),
        "alaw" => Some(Coding::G711(Law::Alaw)),
        _ => None,
    }
}

// What the words ask for: how many units came out.
fn measure(alloc: Global, name: &str, work: &str, size: usize) -> Result<Option<usize>, NoMemory> {
    let Some(coding) = coding_of(name) else {
        return Ok(None);
    };
    match work {
        "make" => {
            let chunk = chunk_of(alloc, size)?;
            Ok(Some(chunk.bytes.len()))
        }
        "decode" => decode(alloc, SampleCoder::new(Role::Decode, coding), name, size),
        "encode" => encode(alloc, SampleCoder::new(Role::Encode, coding), name, size),
        _ => Ok(None),
    }
}

fn words(rt: &(impl Env + Alloc<A = Global>)) -> io::Result<Vec<String>> {
    let mut words = Vec::new(rt.alloc());
    for word in env::args(rt)?.skip(1) {
        words.push(word)?;
    }
    Ok(words)
}

fn run(alloc: Global, words: &[String]) -> Result<Option<usize>, NoMemory> {
    let [codec, work, size] = words else {
        return Ok(None);
    };
    match size.as_str().parse::<u16>() {
        Ok(size) => measure(
            alloc,
            codec.as_str(),
            work.as_str(),
            usize::from(size) << 20,
        ),
        Err(_) => Ok(None),
    }
}

fn main(rt: HostRuntime) -> ExitCode {
    let Ok(words) = words(&rt) else {
        return ExitCode::from(1);
    };
    match run(rt.alloc(), &words) {
        Ok(Some(units)) => match println!(rt; "{units}") {
            Ok(()) => ExitCode::from(0),
            Err(_) => ExitCode::from(5),
        },
        Ok(None) => ExitCode::from(2),
        Err(NoMemory) => ExitCode::from(6),
    }
}
