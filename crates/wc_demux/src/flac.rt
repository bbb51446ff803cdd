// Native FLAC files.
ghost use Rattle.std.specs.Prelude.{◌≡◌, ◌≤◌, ◌++◌, ◌*◌, ℕ, Ok, IfOk, IfErr, IsErr, length, take};
ghost use Rattle.chunk_files.specs.Stops.{IfFault};
ghost use Rattle.chunk_files.specs.declared.fault.DemuxFault.{DemuxFault};
ghost use Rattle.chunk_files.specs.declared.fault.Stop.TheVariants as stop;
ghost use Rattle.flac_decode.specs.FrameEnd.{EndsAt, IsFront};
ghost use Rattle.wc_demux.specs.Wav.{joined};
ghost use Rattle.wc_demux.specs.Flac.{IsFlacFault, IsFlacFile, frame_chunk, head_of};
ghost use Rattle.wc_demux.specs.declared.flac.Flac.{Flac};

use crate::blocks::head_of;
use crate::parts::tail;
use bytes::Bytes;
use chunk_files::{DemuxFault, Stop};
use flac_decode::{FrontFrame, frames_are_found, front_frame};
use std::alloc::Global;
use wc_base::{List, NoMemory};
use wc_chunk::Chunk;
use wc_config::StreamInfo;

/// What a native FLAC file holds: the description of its stream, and its `frames` in samples a channel, a chunk for each
/// frame of the stream.
#[derive(Debug, PartialEq, Drop)]
pub struct Flac {
    pub info: StreamInfo,
    pub frames: u64,
    pub chunks: List<Chunk>,
}

/// Reads a native FLAC file (RFC 9639, section 6). Each frame is a key chunk, at the time of the samples before it in
/// microseconds, rounded down, at most the greatest `i64`.
///
/// `BadFlac` at 0 where the bytes begin with no description (its mark, and a STREAMINFO block with a rate and a depth of 4
/// bits or more), at the first metadata block that is cut, and at the first place behind the blocks where no frame of the
/// stream begins. `NoMemory` only where memory is wanted.
pub fn read_flac(alloc: Global, bytes: &[u8]) -> Result<Flac, Stop<DemuxFault>>
    requires { length bytes.now ≤ 268435456 }
    ensures flac { IfOk result (λ f. IsFlacFile f bytes.now) }
    ensures fault { IfErr result (λ e. IfFault e (IsFlacFault bytes.now)) }
    ensures same { (f : Flac) → IsFlacFile f bytes.now → IfOk result (λ g. g ≡ f) }
    ensures file_is_read { (f : Flac) → IsFlacFile f bytes.now → IfErr result (λ e. e ≡ stop.NoMemory) }
    ensures fault_is_told { (e : DemuxFault) → IsFlacFault bytes.now e
        → IfErr result (λ f. IfFault f (λ x. x ≡ e)) }
    ensures faulty_is_refused { (e : DemuxFault) → IsFlacFault bytes.now e → IsErr result }
    ensures joined { IfOk result (λ f. (place : ℕ) × (head_of bytes.now ≡ Ok (f.info, place))
        × (take place bytes.now ++ joined f.chunks ≡ bytes.now)) }
{
    frames_are_found();
    read_all(alloc, bytes)
}

/// The same, told by its answer alone.
fn read_all(alloc: Global, bytes: &[u8]) -> Result<Flac, Stop<DemuxFault>>
    requires { length bytes.now ≤ 268435456 }
    ensures flac { IfOk result (λ f. IsFlacFile f bytes.now) }
    ensures fault { IfErr result (λ e. IfFault e (IsFlacFault bytes.now)) }
{
    let (info, place) = match head_of(bytes) {
        Ok(head) => head,
        Err(fault) => return Err(Stop::Fault(fault)),
    };
    frames_are_found();
    let (mut residual, mut samples) = (Vec::new(alloc), Vec::new(alloc));
    let mut chunks = Vec::new(alloc);
    let mut frames = 0u64;
    let mut at = place;
    while at < bytes.len() {
        let rest = tail(bytes, at);
        let front = match front_at(at as u64, rest, &info, &mut residual, &mut samples) {
            Ok(front) => front,
            Err(stop) => return Err(stop),
        };
        let chunk = chunk_of(alloc, &info, frames, front.block, &rest[..front.size])?;
        chunks.reserve(1)?;
        chunks.push_reserved(chunk);
        at += front.size;
        frames += front.block as u64;
    }
    Ok(Flac {
        info,
        frames,
        chunks: List::of(chunks),
    })
}

/// The frame in front of bytes that stand at a place of their file.
fn front_at(
    at: u64,
    bytes: &[u8],
    info: &StreamInfo,
    residual: &mut Vec<i32>,
    samples: &mut Vec<i64>,
) -> Result<FrontFrame, Stop<DemuxFault>>
    ensures found { IfOk result (λ f. IsFront info.now bytes.now (Some f)) }
    ensures none { IfErr result (λ e. IfFault e
        (λ f. (f ≡ DemuxFault.BadFlac at) × EndsAt info.now bytes.now None)) }
{
    match front_frame(bytes, info, residual, samples)? {
        Some(front) => Ok(front),
        None => Err(Stop::Fault(DemuxFault::BadFlac { at })),
    }
}

/// The chunk of a frame of so many samples a channel, with so many before it.
fn chunk_of(
    alloc: Global,
    info: &StreamInfo,
    before: u64,
    block: u32,
    bytes: &[u8],
) -> Result<Chunk, NoMemory>
    requires rate { 1 ≤ info.now.rate }
    requires before { before ≤ 65535 * 268435456 }
    ensures { IfOk result (λ c. c ≡ frame_chunk info.now before block bytes.now) }
{
    let rate = info.rate as u64;
    let micros = before * 1_000_000 / rate;
    Ok(Chunk {
        key: true,
        timestamp: micros.min(i64::MAX as u64) as i64,
        duration: Some(block as u64 * 1_000_000 / rate),
        bytes: Bytes::copy_from_slice(alloc, bytes)?,
    })
}
