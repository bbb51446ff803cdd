// The sound of a WAV file, in chunks.
ghost use Rattle.std.specs.Prelude.{◌≡◌, ◌≤◌, ◌<◌, ◌^◌, IfOk, length};
ghost use Rattle.wc_demux.specs.Wav.{chunks_of, sound_chunk};

use crate::format::Format;
use bytes::Bytes;
use std::alloc::Global;
use wc_base::NoMemory;
use wc_chunk::Chunk;

/// The frames of sound, in chunks of so many.
pub fn cut(
    alloc: Global,
    per_chunk: u32,
    format: &Format,
    sound: &[u8],
) -> Result<Vec<Chunk>, NoMemory>
    requires some { 1 ≤ per_chunk }
    requires frame { 1 ≤ format.now.frame_size }
    requires frame_fits { format.now.frame_size < 2 ^ 16 }
    requires rate { 1 ≤ format.now.rate }
    requires short { length sound.now < 2 ^ 32 }
    ensures { IfOk result (λ v. v.items ≡ chunks_of per_chunk format.now sound.now) }
{
    let size = per_chunk as usize * format.frame_size;
    let frames = sound.len() / format.frame_size;
    let mut chunks = Vec::new(alloc);
    let mut rest = sound;
    for i in 0..frames.div_ceil(per_chunk as usize) {
        let (content, more) = rest.split_at(size.min(rest.len()));
        let before = i as u64 * per_chunk as u64;
        let chunk = chunk_of(alloc, format, before, content)?;
        chunks.reserve(1)?;
        chunks.push_reserved(chunk);
        rest = more;
    }
    Ok(chunks)
}

/// The chunk of these frames, with so many before them.
fn chunk_of(alloc: Global, format: &Format, before: u64, content: &[u8]) -> Result<Chunk, NoMemory>
    requires frame { 1 ≤ format.now.frame_size }
    requires rate { 1 ≤ format.now.rate }
    requires before { before < 2 ^ 32 }
    requires short { length content.now < 2 ^ 32 }
    ensures { IfOk result (λ c. c ≡ sound_chunk format.now before content.now) }
{
    let rate = format.rate as u64;
    let frames = (content.len() / format.frame_size) as u64;
    Ok(Chunk {
        key: true,
        timestamp: (before * 1_000_000 / rate) as i64,
        duration: Some(frames * 1_000_000 / rate),
        bytes: Bytes::copy_from_slice(alloc, content)?,
    })
}
