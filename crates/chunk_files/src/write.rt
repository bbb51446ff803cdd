// Writes chunk files.
ghost use Rattle.std.specs.Prelude.{◌≡◌, ◌<◌, ◌^◌, ◌++◌, ℕ, List, All, IfOk, IfSome, OnOk, length};
ghost use Rattle.chunk_files.specs.Layout.{BeginsWith};
ghost use Rattle.chunk_files.specs.Grammar.{IsChunkFile};
ghost use Rattle.chunk_files.specs.Written.{written, written_chunk, written_duration};

use byteorder::{BigEndian, WriteBytesExt};
use std::alloc::Global;
use std::io;
use wc_base::NoMemory;
use wc_chunk::Chunk;

/// The file of the chunks.
pub fn write_chunks(alloc: Global, chunks: &[Chunk]) -> Result<Vec<u8>, NoMemory>
    requires { All (λ c. length c.bytes < 2 ^ 32) chunks.now }
    ensures written { IfOk result (λ v. v.items ≡ written chunks.now) }
    ensures file { IfOk result (λ v. IsChunkFile chunks.now v.items) }
{
    let mut out = Vec::from_slice(alloc, b"WCC1".as_slice())?;
    for chunk in chunks {
        match write_chunk(chunk, &mut out) {
            Ok(()) => {}
            Err(_) => return Err(NoMemory),
        }
    }
    Ok(out)
}

/// Appends what is written for a chunk.
fn write_chunk(chunk: &Chunk, out: &mut Vec<u8>) -> io::Result<()>
    requires { length chunk.now.bytes < 2 ^ 32 }
    ensures bytes { OnOk result (out.new.items ≡ out.old.items ++ written_chunk chunk.now) }
    ensures begun { OnOk result
        ((rest : List ℕ) → BeginsWith chunk.now (written_chunk chunk.now ++ rest) rest) }
{
    let bytes = chunk.bytes.as_slice();
    out.write_u8(if chunk.key { 0 } else { 1 })?;
    out.write_i64::<BigEndian>(chunk.timestamp)?;
    write_duration(chunk.duration, out)?;
    out.write_u32::<BigEndian>(bytes.len() as u32)?;
    out.extend_from_slice(bytes)?;
    Ok(())
}

/// Appends what is written for a chunk's duration.
fn write_duration(duration: Option<u64>, out: &mut Vec<u8>) -> io::Result<()>
    ensures bytes { OnOk result (out.new.items ≡ out.old.items ++ written_duration duration) }
    ensures fits { IfSome duration (λ d. d < 2 ^ 64) }
{
    match duration {
        Some(duration) => {
            out.write_u8(1)?;
            out.write_u64::<BigEndian>(duration)
        }
        None => {
            out.write_u8(0)?;
            out.write_u64::<BigEndian>(0)
        }
    }
}
