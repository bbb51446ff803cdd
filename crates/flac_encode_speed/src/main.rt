//! Encodes the samples of a file as FLAC, to measure what a sample costs and to compare the frames with another decoder's
//! samples: `flac_encode_speed WORK FORMAT RATE CHANNELS DEPTH LEVEL BLOCK PIECE FILE`. WORK is `encode` (prints how many
//! frames came out and how many bytes they have), `write` (writes the frames one after another) or `read` (only reads the
//! file, and prints how many bytes it has). FORMAT is that of the samples in the file, which stand frame by frame in whole
//! bytes, the least significant first: `u8`, `s16` or `s32`; behind `planar-` each piece has its channels one after
//! another. DEPTH, LEVEL and BLOCK are the config's, and PIECE says how many frames are pushed at once.
#![tactic(auto)]

ghost use Rattle.std.specs.Prelude.{◌≡◌, ◌<◌, ◌≤◌, length, OnOk};
ghost use Rattle.coder_api.specs.Meaning.{IsConfigured};

use codec_definitions::Unit;
use coder_api::{Coder, CoderFault, Input};
use flac_encode::FlacEncoder;
use std::alloc::Global;
use std::io::{BufWriter, Write};
use std::process::ExitCode;
use std::rt::{Env, Files};
use std::{env, fs, io};
use wc_base::{NoMemory, SampleFormat, SoundShape, Text};
use wc_config::{AudioEncoderConfig, Config};

/// What is done with the samples.
#[derive(Clone, Copy, PartialEq, Eq)]
enum Work {
    Read,
    Encode,
    Write,
}

fn work_of(word: &str) -> Option<Work> {
    match word {
        "read" => Some(Work::Read),
        "encode" => Some(Work::Encode),
        "write" => Some(Work::Write),
        _ => None,
    }
}

/// How the file's samples are stored and cut into pieces.
#[derive(Clone, Copy)]
struct Layout {
    format: SampleFormat,
    rate: u32,
    channels: u8,
    piece: u32,
}

fn format_of(word: &str) -> Option<SampleFormat> {
    match word {
        "u8" => Some(SampleFormat::U8),
        "s16" => Some(SampleFormat::S16),
        "s32" => Some(SampleFormat::S32),
        "planar-u8" => Some(SampleFormat::U8Planar),
        "planar-s16" => Some(SampleFormat::S16Planar),
        "planar-s32" => Some(SampleFormat::S32Planar),
        _ => None,
    }
}

/// Bytes a frame.
fn frame_size(layout: Layout) -> usize
    ensures { result ≤ 1020 }
{
    let size = match layout.format {
        SampleFormat::U8 | SampleFormat::U8Planar => 1,
        SampleFormat::S16 | SampleFormat::S16Planar => 2,
        SampleFormat::S32 | SampleFormat::S32Planar => 4,
    };
    size * layout.channels as usize
}

/// Why nothing comes out.
#[derive(Drop)]
enum Fault {
    Refused,
    NoMemory,
    Host,
}

impl From<NoMemory> for Fault {
    fn from(_fault: NoMemory) -> Fault {
        Fault::NoMemory
    }
}

impl From<CoderFault> for Fault {
    fn from(fault: CoderFault) -> Fault {
        match fault {
            CoderFault::Refused => Fault::Refused,
            CoderFault::NoMemory => Fault::NoMemory,
        }
    }
}

impl From<io::Error> for Fault {
    fn from(_fault: io::Error) -> Fault {
        Fault::Host
    }
}

/// How much came out.
#[derive(Clone, Copy)]
struct Counts {
    frames: u64,
    bytes: u64,
}

/// Takes one piece.
fn push_piece(
    alloc: Global,
    layout: Layout,
    piece: &[u8],
    encoder: &mut FlacEncoder,
    units: &mut Vec<Unit>,
) -> Result<(), CoderFault>
    requires configured { IsConfigured encoder.old.meaning }
    ensures configured { OnOk result (IsConfigured encoder.new.meaning) }
{
    let size = frame_size(layout);
    if size == 0 {
        return Err(CoderFault::Refused);
    }
    let Ok(frames) = u32::try_from(piece.len() / size) else {
        return Err(CoderFault::Refused);
    };
    let shape = SoundShape {
        format: layout.format,
        rate: layout.rate,
        channels: u32::from(layout.channels),
        frames,
        timestamp: 0,
    };
    encoder.push(alloc, &Input::Sound(&shape, piece), units)
}

/// Writes the bytes of units where that is asked for, and counts them.
fn write_units<W: Write>(
    work: Work,
    units: &[Unit],
    counts: Counts,
    writer: &mut W,
) -> io::Result<Counts> {
    let mut counts = counts;
    for unit in units {
        if let Unit::Coded { chunk, .. } = unit {
            if work == Work::Write {
                writer.write_all(chunk.bytes.as_slice())?;
            }
            counts.frames = counts.frames.wrapping_add(1);
            counts.bytes = counts.bytes.wrapping_add(chunk.bytes.len() as u64);
        }
    }
    Ok(counts)
}

/// Encodes all pieces and what they leave.
fn encode_all<W: Write>(
    alloc: Global,
    work: Work,
    config: &Config,
    layout: Layout,
    samples: &[u8],
    writer: &mut W,
) -> Result<Counts, Fault> {
    let mut encoder = FlacEncoder::new();
    if !encoder.supports(config) {
        return Err(Fault::Refused);
    }
    let size = frame_size(layout) * layout.piece as usize;
    if size == 0 {
        return Err(Fault::Refused);
    }
    encoder.configure(alloc, config)?;
    let mut units = Vec::new(alloc);
    let mut counts = Counts {
        frames: 0,
        bytes: 0,
    };
    let mut rest = samples;
    while !rest.is_empty() {
        let (piece, more) = rest.split_at(size.min(rest.len()));
        push_piece(alloc, layout, piece, &mut encoder, &mut units)?;
        counts = write_units(work, units.as_slice(), counts, writer)?;
        units.clear();
        rest = more;
    }
    encoder.drain(alloc, &mut units)?;
    Ok(write_units(work, units.as_slice(), counts, writer)?)
}

/// What the words ask for.
#[derive(Drop)]
struct Order {
    work: Work,
    layout: Layout,
    config: Config,
}

fn number_of(word: &String) -> Result<u32, Fault> {
    match word.as_str().parse::<u32>() {
        Ok(number) => Ok(number),
        Err(_) => Err(Fault::Refused),
    }
}

fn channels_of(word: &String) -> Result<u8, Fault> {
    match word.as_str().parse::<u8>() {
        Ok(number) => Ok(number),
        Err(_) => Err(Fault::Refused),
    }
}

fn codec_name(alloc: Global) -> Result<Text, NoMemory> {
    Ok(Text::of(String::from_str(alloc, "flac")?))
}

/// The order of the words, all but the file.
fn order_of(alloc: Global, words: &[String]) -> Result<Order, Fault> {
    let [work, format, rate, channels, depth, level, block, piece] = words else {
        return Err(Fault::Refused);
    };
    let (Some(work), Some(format)) = (work_of(work.as_str()), format_of(format.as_str())) else {
        return Err(Fault::Refused);
    };
    let layout = Layout {
        format,
        rate: number_of(rate)?,
        channels: channels_of(channels)?,
        piece: number_of(piece)?,
    };
    let config = Config::AudioEncoder(AudioEncoderConfig {
        codec: codec_name(alloc)?,
        rate: layout.rate,
        channels: u32::from(layout.channels),
        block_size: number_of(block)?,
        level: number_of(level)?,
        depth: number_of(depth)?,
    });
    Ok(Order {
        work,
        layout,
        config,
    })
}

fn words(rt: &(impl Env + Alloc<A = Global>)) -> io::Result<Vec<String>> {
    let mut words = Vec::new(rt.alloc());
    for word in env::args(rt)?.skip(1) {
        words.push(word)?;
    }
    Ok(words)
}

/// Does what the words ask for.
fn run(rt: &HostRuntime, words: &[String]) -> Result<(), Fault> {
    let [front @ .., file] = words else {
        return Err(Fault::Refused);
    };
    let order = order_of(rt.alloc(), front)?;
    let samples = fs::read(rt, file.as_str())?;
    let mut writer = BufWriter::new(rt.alloc(), io::writer(rt))?;
    let Order {
        work,
        layout,
        config,
    } = &order;
    let counts = if *work == Work::Read {
        Counts {
            frames: 0,
            bytes: samples.len() as u64,
        }
    } else {
        encode_all(rt.alloc(), *work, config, *layout, &samples, &mut writer)?
    };
    if *work != Work::Write {
        writeln!(writer, "{} {}", counts.frames, counts.bytes)?;
    }
    writer.flush()?;
    Ok(())
}

fn main(rt: HostRuntime) -> ExitCode {
    let Ok(words) = words(&rt) else {
        return ExitCode::from(1);
    };
    match run(&rt, &words) {
        Ok(()) => ExitCode::from(0),
        Err(Fault::Refused) => ExitCode::from(2),
        Err(Fault::Host) => ExitCode::from(5),
        Err(Fault::NoMemory) => ExitCode::from(6),
    }
}
