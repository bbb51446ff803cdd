// Chunk files that are cut, faulty and whole.
ghost use Rattle.std.specs.Prelude.{◌<◌, ◌^◌, All, IfOk, length};

use bytes::Bytes;
use chunk_files::{ChunkFault, Stop, read_chunks, write_chunks, written_chunks_are_read};
use std::alloc::Global;
use std::test::Fail;
use wc_base::NoMemory;
use wc_chunk::Chunk;

// The file of one empty chunk: mark, type, timestamp, flag, duration and count.
const EMPTY_CHUNK: [u8; 26] = [
    87, 67, 67, 49, 0, 0, 0, 0, 0, 0, 0, 0, 0, 0, 0, 0, 0, 0, 0, 0, 0, 0, 0, 0, 0, 0,
];

// A key chunk of three bytes at the timestamp -2 with no duration, and a delta chunk of one byte at 258 that takes 20000.
const TWO_CHUNKS: [u8; 52] = [
    87, 67, 67, 49, 0, 255, 255, 255, 255, 255, 255, 255, 254, 0, 0, 0, 0, 0, 0, 0, 0, 0, 0, 0, 0,
    3, 7, 8, 9, 1, 0, 0, 0, 0, 0, 0, 1, 2, 1, 0, 0, 0, 0, 0, 0, 78, 32, 0, 0, 0, 1, 200,
];

fn two_chunks(alloc: Global) -> Result<Vec<Chunk>, NoMemory>
    ensures { IfOk result (λ v. All (λ c. length c.bytes < 2 ^ 32) v.items) }
{
    let first = Chunk {
        key: true,
        timestamp: -2,
        duration: None,
        bytes: Bytes::copy_from_slice(alloc, &[7, 8, 9])?,
    };
    let second = Chunk {
        key: false,
        timestamp: 258,
        duration: Some(20000),
        bytes: Bytes::copy_from_slice(alloc, &[200])?,
    };
    let mut chunks = Vec::new(alloc);
    chunks.reserve(2)?;
    chunks.push_reserved(first);
    chunks.push_reserved(second);
    Ok(chunks)
}

fn cut_answer(n: u64) -> Option<ChunkFault> {
    match n {
        0..=3 => Some(ChunkFault::BadMark { at: n }),
        4 | 26 => None,
        5..=12 => Some(ChunkFault::Short { at: 5 }),
        13 => Some(ChunkFault::Short { at: 13 }),
        14..=21 => Some(ChunkFault::Short { at: 14 }),
        _ => Some(ChunkFault::Short { at: 22 }),
    }
}

#[test]
fn cut_files(rt: HostRuntime) -> Result<(), Fail> {
    let alloc = rt.alloc();
    for n in 0..27 {
        let fault = match read_chunks(alloc, &EMPTY_CHUNK[..n]) {
            Ok(_) => None,
            Err(stop) => Some(stop),
        };
        assert_eq!(rt; fault, cut_answer(n as u64).map(Stop::Fault));
    }
    let empty = match read_chunks(alloc, &EMPTY_CHUNK) {
        Ok(chunks) => chunks.len() == 1 && chunks[0].bytes.is_empty(),
        Err(_) => false,
    };
    assert!(rt; empty);
    Ok(())
}

#[test]
fn two_chunks_are_read_and_written(rt: HostRuntime) -> Result<(), Fail> {
    let alloc = rt.alloc();
    let chunks = two_chunks(alloc)?;
    assert!(rt; write_chunks(alloc, &chunks)?.as_slice() == TWO_CHUNKS.as_slice());
    assert!(rt; read_chunks(alloc, &TWO_CHUNKS)? == chunks);
    assert!(rt; written_chunks_are_read(alloc, &chunks)? == chunks);
    Ok(())
}

fn with_byte(at: usize, byte: u8) -> [u8; 52] {
    let mut file = TWO_CHUNKS;
    if at < 52 {
        file[at] = byte;
    }
    file
}

fn fault_of(alloc: Global, bytes: &[u8]) -> Option<Stop<ChunkFault>> {
    match read_chunks(alloc, bytes) {
        Ok(_) => None,
        Err(stop) => Some(stop),
    }
}

#[test]
fn faulty_files(rt: HostRuntime) -> Result<(), Fail> {
    let alloc = rt.alloc();
    assert_eq!(rt;
        fault_of(alloc, &with_byte(2, 99)),
        Some(Stop::Fault(ChunkFault::BadMark { at: 2 }))
    );
    assert_eq!(rt;
        fault_of(alloc, &with_byte(29, 2)),
        Some(Stop::Fault(ChunkFault::BadKind { at: 29, found: 2 }))
    );
    assert_eq!(rt;
        fault_of(alloc, &with_byte(38, 255)),
        Some(Stop::Fault(ChunkFault::BadKind { at: 38, found: 255 }))
    );
    assert_eq!(rt;
        fault_of(alloc, &with_byte(50, 2)),
        Some(Stop::Fault(ChunkFault::Short { at: 51 }))
    );
    // The field of a duration that is not there is not looked at.
    assert!(rt; read_chunks(alloc, &with_byte(14, 9))? == two_chunks(alloc)?);
    Ok(())
}
