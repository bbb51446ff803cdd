// Reads chunk files.
ghost use Rattle.std.specs.Prelude.{◌≡◌, ◌≢◌, ◌<◌, ◌≤◌, ◌+◌, ◌^◌, None, List, IfOk, IfErr, IsErr, length, drop, slice_index};
ghost use Rattle.byteorder.specs.Endian.{big_number};
ghost use Rattle.chunk_files.specs.Layout.{BeginsWith, IsDuration};
ghost use Rattle.chunk_files.specs.Stops.{IfFault};
ghost use Rattle.chunk_files.specs.Grammar.{IsChunkFile, IsFirstFault, chunk_fault, marked};
ghost use Rattle.chunk_files.specs.declared.fault.ChunkFault.{ChunkFault};
ghost use Rattle.chunk_files.specs.declared.fault.Stop.TheVariants as stop;
ghost use Rattle.wc_chunk.specs.declared.chunk.Chunk.{Chunk};

use crate::{ChunkFault, Stop};
use byteorder::{BigEndian, ByteOrder};
use bytes::Bytes;
use std::alloc::Global;
use wc_base::NoMemory;
use wc_chunk::Chunk;

/// The chunks whose file the bytes are. Where they are no chunk file, its first fault in the order of the file.
pub fn read_chunks(alloc: Global, bytes: &[u8]) -> Result<Vec<Chunk>, Stop<ChunkFault>>
    ensures chunks { IfOk result (λ v. IsChunkFile v.items bytes.now) }
    ensures fault { IfErr result (λ e. IfFault e (IsFirstFault bytes.now)) }
    ensures file_is_read { (chunks : List Chunk) → IsChunkFile chunks bytes.now
        → IfErr result (λ e. e ≡ stop.NoMemory) }
    ensures fault_is_told { (e : ChunkFault) → IsFirstFault bytes.now e
        → IfErr result (λ f. IfFault f (λ x. x ≡ e)) }
    ensures faulty_is_refused { (e : ChunkFault) → IsFirstFault bytes.now e → IsErr result }
    ensures same_chunks { (chunks : List Chunk) → IsChunkFile chunks bytes.now
        → IfOk result (λ v. v.items ≡ chunks) }
{
    read_all(alloc, bytes)
}

/// The same, told by its answer alone.
fn read_all(alloc: Global, bytes: &[u8]) -> Result<Vec<Chunk>, Stop<ChunkFault>>
    ensures chunks { IfOk result (λ v. IsChunkFile v.items bytes.now) }
    ensures fault { IfErr result (λ e. IfFault e (IsFirstFault bytes.now)) }
{
    let agreeing = agreeing(bytes);
    if agreeing < 4 {
        return Err(Stop::Fault(ChunkFault::BadMark {
            at: agreeing as u64,
        }));
    }
    let mut chunks = Vec::new(alloc);
    let mut at = 4;
    while at < bytes.len() {
        let rest = tail(bytes, at);
        if let Some(fault) = chunk_fault(at as u64, rest) {
            return Err(Stop::Fault(fault));
        }
        let chunk = read_chunk(alloc, rest)?;
        at += 22 + chunk.bytes.len();
        chunks.reserve(1)?;
        chunks.push_reserved(chunk);
    }
    Ok(chunks)
}

/// How many of the first bytes agree with the mark.
fn agreeing(bytes: &[u8]) -> usize
    ensures { result ≡ marked bytes.now }
{
    let mark = b"WCC1".as_slice();
    let mut n = 0;
    while n < mark.len() && n < bytes.len() && bytes[n] == mark[n] {
        n += 1;
    }
    n
}

/// The first fault of the chunk that begins the bytes, which stand at `place` in their file.
fn chunk_fault(place: u64, bytes: &[u8]) -> Option<ChunkFault>
    requires { place + length bytes.now < 2 ^ 63 }
    ensures { result ≡ chunk_fault place bytes.now }
{
    let len = bytes.len();
    if len == 0 {
        None
    } else if bytes[0] > 1 {
        Some(ChunkFault::BadKind {
            at: place,
            found: bytes[0],
        })
    } else if len < 9 {
        Some(ChunkFault::Short { at: place + 1 })
    } else if len < 10 {
        Some(ChunkFault::Short { at: place + 9 })
    } else if bytes[9] > 1 {
        Some(ChunkFault::BadKind {
            at: place + 9,
            found: bytes[9],
        })
    } else if len < 18 {
        Some(ChunkFault::Short { at: place + 10 })
    } else if len < 22 {
        Some(ChunkFault::Short { at: place + 18 })
    } else if len < 22 + BigEndian::read_u32(&bytes[18..]) as usize {
        Some(ChunkFault::Short { at: place + 22 })
    } else {
        None
    }
}

/// The chunk that begins the bytes.
fn read_chunk(alloc: Global, bytes: &[u8]) -> Result<Chunk, NoMemory>
    requires header { 22 ≤ length bytes.now }
    requires flag { slice_index bytes.now 9 ≤ 1 }
    requires type_byte { slice_index bytes.now 0 ≤ 1 }
    requires content { 22 + big_number 4 (drop 18 bytes.now) ≤ length bytes.now }
    ensures { IfOk result (λ c. BeginsWith c bytes.now (drop (22 + length c.bytes) bytes.now)) }
{
    let count = BigEndian::read_u32(tail(bytes, 18)) as usize;
    let content = &tail(bytes, 22)[..count];
    Ok(Chunk {
        key: bytes[0] == 0,
        timestamp: BigEndian::read_i64(tail(bytes, 1)),
        duration: duration_of(bytes),
        bytes: Bytes::copy_from_slice(alloc, content)?,
    })
}

/// The duration that a chunk's header has.
fn duration_of(header: &[u8]) -> Option<u64>
    requires whole { 22 ≤ length header.now }
    requires flag { slice_index header.now 9 ≤ 1 }
    ensures { IsDuration result header.now }
{
    if header[9] == 1 {
        Some(BigEndian::read_u64(&header[10..]))
    } else {
        None
    }
}

/// The bytes from a place on.
fn tail(bytes: &[u8], at: usize) -> &[u8]
    requires { at ≤ length bytes.now }
    ensures { result.now ≡ drop at bytes.now }
{
    &bytes[at..]
}
