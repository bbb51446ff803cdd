//! Measures copies of audio data of two channels: `copy_speed FROM TO FRAMES ROUNDS` copies so many frames
//! from one format to another, plane after plane where it is planar, and prints how many bytes were
//! written. With no round it only makes the data. `copy_speed adopt BYTES ROUNDS` makes audio data over
//! one resource of so many bytes, and `copy_speed new BYTES ROUNDS` with a copy of them.
#![tactic(auto)]

mod adopting;

use adopting::{adopt_rounds, new_rounds};
use std::alloc::Global;
use std::process::ExitCode;
use std::rt::Env;
use std::{env, io};
use wc_audio::{AudioData, CopyFormat, CopyOptions};
use wc_base::{By, NoMemory, SampleFormat, SoundShape, Who};
use wc_pool::{MediaFault, Pool};

fn format_of(word: &str) -> Option<SampleFormat> {
    match word {
        "u8" => Some(SampleFormat::U8),
        "s16" => Some(SampleFormat::S16),
        "s32" => Some(SampleFormat::S32),
        "u8-planar" => Some(SampleFormat::U8Planar),
        "s16-planar" => Some(SampleFormat::S16Planar),
        "s32-planar" => Some(SampleFormat::S32Planar),
        _ => None,
    }
}

fn copy_format_of(word: &str) -> Option<CopyFormat> {
    match word {
        "u8" => Some(CopyFormat::U8),
        "s16" => Some(CopyFormat::S16),
        "s32" => Some(CopyFormat::S32),
        "u8-planar" => Some(CopyFormat::U8Planar),
        "s16-planar" => Some(CopyFormat::S16Planar),
        "s32-planar" => Some(CopyFormat::S32Planar),
        _ => None,
    }
}

fn is_planar(format: CopyFormat) -> bool {
    match format {
        CopyFormat::U8Planar | CopyFormat::S16Planar | CopyFormat::S32Planar => true,
        _ => false,
    }
}

fn copy_plane(data: &AudioData, format: CopyFormat, plane: u32, out: &mut [u8]) -> u64 {
    let o = CopyOptions {
        plane,
        offset: 0,
        count: None,
        format: Some(format),
    };
    match data.copy_to(out, &o) {
        Ok(n) => n as u64,
        Err(_) => 0,
    }
}

fn copy_round(data: &AudioData, format: CopyFormat, out: &mut [u8]) -> u64 {
    let first = copy_plane(data, format, 0, out);
    if is_planar(format) {
        first.wrapping_add(copy_plane(data, format, 1, out))
    } else {
        first
    }
}

fn bytes_of(alloc: Global, byte: u8, size: usize) -> Result<Vec<u8>, NoMemory> {
    Ok(vec![in alloc; byte; size]?)
}

fn run(
    alloc: Global,
    from: SampleFormat,
    to: CopyFormat,
    frames: u32,
    rounds: u32,
) -> Result<u64, MediaFault> {
    let shape = SoundShape {
        format: from,
        rate: 48000,
        channels: 2,
        frames,
        timestamp: 0,
    };
    let size = frames as usize * 8;
    let bytes = bytes_of(alloc, 0x5A, size)?;
    let mut out = bytes_of(alloc, 0, size)?;
    let mut pool = Pool::open(alloc);
    let by = By::Caller(Who { caller: 0, step: 0 });
    let data = AudioData::new(alloc, shape, bytes.as_slice(), &mut pool, by)?;
    let mut sum: u64 = 0;
    for _ in 0..rounds {
        sum = sum.wrapping_add(copy_round(&data, to, out.as_mut_slice()));
    }
    Ok(sum)
}

fn words(rt: &(impl Env + Alloc<A = Global>)) -> io::Result<Vec<String>> {
    let mut words = Vec::new(rt.alloc());
    for word in env::args(rt)?.skip(1) {
        words.push(word)?;
    }
    Ok(words)
}

fn measure_data(alloc: Global, kind: &str, size: u32, rounds: u32) -> Option<u64> {
    match kind {
        "adopt" => adopt_rounds(alloc, size, rounds).ok(),
        "new" => new_rounds(alloc, size, rounds).ok(),
        _ => None,
    }
}

fn measure(alloc: Global, words: &[String]) -> Option<u64> {
    match words {
        [kind, size, rounds] => {
            let size: u32 = size.as_str().parse().ok()?;
            let rounds: u32 = rounds.as_str().parse().ok()?;
            measure_data(alloc, kind.as_str(), size, rounds)
        }
        [from, to, frames, rounds] => {
            let from = format_of(from.as_str())?;
            let to = copy_format_of(to.as_str())?;
            let frames: u32 = frames.as_str().parse().ok()?;
            let rounds: u32 = rounds.as_str().parse().ok()?;
            run(alloc, from, to, frames, rounds).ok()
        }
        _ => None,
    }
}

fn main(rt: HostRuntime) -> ExitCode {
    let Ok(words) = words(&rt) else {
        return ExitCode::from(1);
    };
    match measure(rt.alloc(), words.as_slice()) {
        Some(sum) => match println!(rt; "{sum}") {
            Ok(()) => ExitCode::from(0),
            Err(_) => ExitCode::from(5),
        },
        None => ExitCode::from(2),
    }
}
