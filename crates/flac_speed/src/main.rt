//! Decodes the FLAC frames of a file, to measure what a sample costs and to compare the samples with another
//! decoder's: `flac_speed decode FILE` prints how many samples a channel came out, `flac_speed write FILE` writes their
//! bytes, `flac_speed each FILE` writes a line for each frame (its samples a channel and the checksum of its bytes, or `-`
//! where it is refused), and `flac_speed read FILE` only counts the frames. `flac_speed next FILE` decodes as `decode` does,
//! without being told where a frame ends. The file has the description of a FLAC decoder's config (42
//! bytes), and then each frame behind its size in four bytes, the most significant first.
#![tactic(auto)]

ghost use Rattle.std.specs.Prelude.{◌<◌, ◌≤◌};

use flac_decode::{FrameFault, decode_frame, decode_front};
use std::alloc::Global;
use std::fs::File;
use std::io::{BufReader, BufWriter, Read, Write};
use std::process::ExitCode;
use std::rt::Env;
use std::{env, io};
use wc_config::{StreamInfo, read_streaminfo};

/// What is done with each frame.
#[derive(Clone, Copy, PartialEq, Eq)]
enum Work {
    Read,
    Decode,
    Next,
    Write,
    Each,
}

fn work_of(word: &str) -> Option<Work> {
    match word {
        "read" => Some(Work::Read),
        "decode" => Some(Work::Decode),
        "next" => Some(Work::Next),
        "write" => Some(Work::Write),
        "each" => Some(Work::Each),
        _ => None,
    }
}

/// The buffers of a decoder.
#[derive(Drop)]
struct Buffers {
    residual: Vec<i32>,
    samples: Vec<i64>,
    out: Vec<u8>,
}

/// The checksum of bytes (FNV-1a, 64 bits).
fn checksum(bytes: &[u8]) -> u64 {
    let mut sum: u64 = 0xcbf2_9ce4_8422_2325;
    for byte in bytes {
        sum = (sum ^ u64::from(*byte)).wrapping_mul(0x100_0000_01b3);
    }
    sum
}

/// Works on one frame: how much is counted for it, if it is not refused or a line is written for each.
fn work_on<W: Write>(
    work: Work,
    frame: &[u8],
    info: &StreamInfo,
    buffers: &mut Buffers,
    writer: &mut W,
) -> io::Result<Option<u64>> {
    let Buffers {
        residual,
        samples,
        out,
    } = buffers;
    if work == Work::Next {
        return Ok(match decode_front(frame, info, residual, samples, out) {
            Ok(front) => Some(u64::from(front.block)),
            Err(_) => None,
        });
    }
    match decode_frame(frame, info, residual, samples, out) {
        Ok(block) => {
            match work {
                Work::Write => writer.write_all(out)?,
                Work::Each => writeln!(writer, "{block} {:016x}", checksum(out))?,
                Work::Read | Work::Decode | Work::Next => {}
            }
            Ok(Some(u64::from(block)))
        }
        Err(FrameFault::Refused) if work == Work::Each => {
            writeln!(writer, "-")?;
            Ok(Some(0))
        }
        Err(_) => Ok(None),
    }
}

/// Reads the next frame, behind its size, to the front of `room`; none at the end of the file.
fn next_frame<'a, R: Read>(reader: &mut R, room: &'a mut Vec<u8>) -> io::Result<Option<&'a [u8]>> {
    let mut size = [0u8; 4];
    if reader.read(&mut size[..1])? == 0 {
        return Ok(None);
    }
    reader.read_exact(&mut size[1..])?;
    let size = u32::from_be_bytes(size) as usize;
    if room.len() < size {
        room.resize(size, 0)?;
    }
    let frame = &mut room[..size];
    reader.read_exact(frame)?;
    Ok(Some(frame))
}

/// Works on all frames of a file; nothing where it has no description or a frame is refused.
fn work_on_all<R: Read, W: Write>(
    alloc: Global,
    work: Work,
    reader: &mut R,
    writer: &mut W,
) -> io::Result<Option<u64>> {
    let mut description = [0u8; 42];
    reader.read_exact(&mut description)?;
    let Some(info) = read_streaminfo(&description) else {
        return Ok(None);
    };
    if info.depth == 0 || info.depth > 32 {
        return Ok(None);
    }
    let mut buffers = Buffers {
        residual: Vec::new(alloc),
        samples: Vec::new(alloc),
        out: Vec::new(alloc),
    };
    let mut room = Vec::new(alloc);
    let mut count = 0u64;
    for _ in 0..u32::MAX {
        let Some(frame) = next_frame(reader, &mut room)? else {
            break;
        };
        let counted = if work == Work::Read {
            Some(1)
        } else {
            work_on(work, frame, &info, &mut buffers, writer)?
        };
        let Some(counted) = counted else {
            return Ok(None);
        };
        count = count.wrapping_add(counted);
    }
    Ok(Some(count))
}

fn words(rt: &(impl Env + Alloc<A = Global>)) -> io::Result<Vec<String>> {
    let mut words = Vec::new(rt.alloc());
    for word in env::args(rt)?.skip(1) {
        words.push(word)?;
    }
    Ok(words)
}

/// What the words ask for: how much was counted, if they ask for something and no frame is refused.
fn run(rt: &HostRuntime, words: &[String]) -> io::Result<Option<u64>> {
    let [work, file] = words else {
        return Ok(None);
    };
    let Some(work) = work_of(work.as_str()) else {
        return Ok(None);
    };
    let mut reader = BufReader::new(rt.alloc(), File::open(rt, file.as_str())?)?;
    let mut writer = BufWriter::new(rt.alloc(), io::writer(rt))?;
    let counted = work_on_all(rt.alloc(), work, &mut reader, &mut writer)?;
    writer.flush()?;
    Ok(match work {
        Work::Read | Work::Decode | Work::Next => counted,
        Work::Write | Work::Each => counted.map(|_| 0),
    })
}

fn main(rt: HostRuntime) -> ExitCode {
    let Ok(words) = words(&rt) else {
        return ExitCode::from(1);
    };
    match run(&rt, &words) {
        Ok(Some(0)) => ExitCode::from(0),
        Ok(Some(count)) => match println!(rt; "{count}") {
            Ok(()) => ExitCode::from(0),
            Err(_) => ExitCode::from(5),
        },
        Ok(None) => ExitCode::from(2),
        Err(_) => ExitCode::from(5),
    }
}
