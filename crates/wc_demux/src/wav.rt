// WAV files.
ghost use Rattle.std.specs.Prelude.{◌≡◌, ◌≤◌, ◌<◌, ◌*◌, ◌/◌, ◌^◌, ℕ, List as Items, Ok, Err, IfOk, IfErr, length};
ghost use Rattle.chunk_files.specs.Stops.{IfFault};
ghost use Rattle.wc_demux.specs.Facts.{IsUsable};
ghost use Rattle.wc_demux.specs.Wav.{joined, sound_in, wav_of};
ghost use Rattle.wc_demux.specs.declared.format.Format.{Format};

use crate::format::Format;
use crate::parts::{find_data, find_format};
use crate::pieces::cut;
use chunk_files::{DemuxFault, Stop};
use std::alloc::Global;
use wc_base::List;
use wc_chunk::Chunk;
use wc_config::CodecId;

/// What a WAV file holds: its codec, `rate` frames a second, `channels` samples a frame, and its `frames`, in chunks.
#[derive(Debug, PartialEq, Drop)]
pub struct Wav {
    pub codec: CodecId,
    pub rate: u32,
    pub channels: u32,
    pub frames: u64,
    pub chunks: List<Chunk>,
}

/// Reads a WAV file (RIFF, WAVE): linear PCM of 8, 16, 24 or 32 bits, A-law or mu-law, in chunks of `per_chunk` frames.
/// Each chunk is a key chunk, at the time of the frames before it in microseconds, rounded down.
///
/// `BadWav` at 0 where `RIFF` and at 8 where `WAVE` lacks, at a part whose eight bytes of id and size are cut, at the first
/// part `fmt ` where it is cut, too short, or where its channels, rate or frame size are wrong, at a part `data` before it,
/// and at the end of the file where no part `data` comes. `Unsupported` where the first part `fmt ` has another format. The
/// first fault in the order of the file; `NoMemory` only where memory is wanted.
pub fn read_wav(alloc: Global, bytes: &[u8], per_chunk: u32) -> Result<Wav, Stop<DemuxFault>>
    requires { 1 ≤ per_chunk }
    ensures wav { IfOk result (λ w. wav_of per_chunk bytes.now ≡ Ok w) }
    ensures fault { IfErr result (λ e. IfFault e (λ f. wav_of per_chunk bytes.now ≡ Err f)) }
    ensures joined { IfOk result (λ w.
        (s : Format × Items ℕ) × (sound_in bytes.now ≡ Ok s) × (joined w.chunks ≡ s.1)) }
{
    let (format, data) = match sound_in(bytes) {
        Ok(sound) => sound,
        Err(fault) => return Err(Stop::Fault(fault)),
    };
    let chunks = cut(alloc, per_chunk, &format, data)?;
    Ok(Wav {
        codec: format.codec,
        rate: format.rate,
        channels: format.channels,
        frames: (data.len() / format.frame_size) as u64,
        chunks: List::of(chunks),
    })
}

/// The format and the data, cut to whole frames.
fn sound_in(bytes: &[u8]) -> Result<(Format, &[u8]), DemuxFault>
    ensures sound { IfOk result (λ s. sound_in bytes.now ≡ Ok (s.0, s.1.now)) }
    ensures usable { IfOk result (λ s. IsUsable s.0) }
    ensures short { IfOk result (λ s. length s.1.now < 2 ^ 32) }
    ensures whole { IfOk result (λ s. length s.1.now ≡ length s.1.now / s.0.frame_size * s.0.frame_size) }
    ensures fault { IfErr result (λ e. sound_in bytes.now ≡ Err e) }
{
    if bytes.len() < 4 || &bytes[..4] != b"RIFF".as_slice() {
        return Err(DemuxFault::BadWav { at: 0 });
    }
    if bytes.len() < 12 || &bytes[8..12] != b"WAVE".as_slice() {
        return Err(DemuxFault::BadWav { at: 8 });
    }
    let (format, behind) = match find_format(bytes) {
        Ok(found) => found,
        Err(fault) => return Err(fault),
    };
    match find_data(bytes, behind) {
        Ok(data) => {
            let whole = data.len() / format.frame_size * format.frame_size;
            Ok((format, &data[..whole]))
        }
        Err(fault) => Err(fault),
    }
}
