// Native FLAC files that are whole, cut and faulty.
ghost use Rattle.std.specs.Prelude.{◌≡◌, ◌≤◌, ◌<◌, length};

use chunk_files::{DemuxFault, Stop};
use std::alloc::Global;
use std::test::Fail;
use wc_base::NoMemory;
use wc_demux::{Flac, read_flac};

/// A description with two frames: one sample a channel, and two; and behind them a byte.
pub(crate) const FRAMES: [u8; 74] = [
    0x66, 0x4c, 0x61, 0x43, 0x80, 0x00, 0x00, 0x22, 0x10, 0x00, 0x10, 0x00, 0x00, 0x00, 0x0f, 0x00,
    0x00, 0x0f, 0x0a, 0xc4, 0x42, 0xf0, 0x00, 0x00, 0x00, 0x01, 0x3e, 0x84, 0xb4, 0x18, 0x07, 0xdc,
    0x69, 0x03, 0x07, 0x58, 0x6a, 0x3d, 0xad, 0x1a, 0x2e, 0x0f, 0xff, 0xf8, 0x69, 0x18, 0x00, 0x00,
    0xbf, 0x03, 0x58, 0xfd, 0x03, 0x12, 0x8b, 0xaa, 0x9a, 0xff, 0xf8, 0x60, 0xa8, 0x00, 0x01, 0xf4,
    0x00, 0x00, 0x01, 0x00, 0x00, 0x01, 0x80, 0x58, 0x24, 0x00,
];

fn read(alloc: Global, bytes: &[u8]) -> Result<Option<Flac>, NoMemory>
    requires { length bytes.now ≤ 268435456 }
{
    match read_flac(alloc, bytes) {
        Ok(flac) => Ok(Some(flac)),
        Err(Stop::Fault(_)) => Ok(None),
        Err(Stop::NoMemory) => Err(NoMemory),
    }
}

/// The first fault of a file, or none.
fn fault_of(alloc: Global, bytes: &[u8]) -> Result<Option<DemuxFault>, NoMemory>
    requires { length bytes.now ≤ 268435456 }
{
    match read_flac(alloc, bytes) {
        Ok(_) => Ok(None),
        Err(Stop::Fault(fault)) => Ok(Some(fault)),
        Err(Stop::NoMemory) => Err(NoMemory),
    }
}

#[test]
fn two_frames(rt: HostRuntime) -> Result<(), Fail> {
    let flac = read(rt.alloc(), &FRAMES[..73])?.ok_or("refused")?;
    assert_eq!(rt;
        (flac.info.rate, flac.info.channels, flac.info.depth),
        (44100, 2, 16)
    );
    assert_eq!(rt; flac.frames, 3);
    let chunks = flac.chunks.as_slice();
    assert_eq!(rt; chunks.len(), 2);
    assert_eq!(rt; chunks[0].bytes.as_slice(), &FRAMES[42..57]);
    assert_eq!(rt; (chunks[0].timestamp, chunks[0].duration), (0, Some(22)));
    assert_eq!(rt; chunks[1].bytes.as_slice(), &FRAMES[57..73]);
    assert_eq!(rt; (chunks[1].timestamp, chunks[1].duration), (22, Some(45)));
    assert!(rt; chunks[0].key && chunks[1].key);
    Ok(())
}

#[test]
fn a_byte_behind_the_frames(rt: HostRuntime) -> Result<(), Fail> {
    let fault = fault_of(rt.alloc(), &FRAMES)?;
    assert_eq!(rt; fault, Some(DemuxFault::BadFlac { at: 73 }));
    Ok(())
}

fn cut_answer(n: u64) -> Option<DemuxFault> {
    match n {
        0..=41 => Some(DemuxFault::BadFlac { at: 0 }),
        42 | 57 | 73 => None,
        43..=56 => Some(DemuxFault::BadFlac { at: 42 }),
        58..=72 => Some(DemuxFault::BadFlac { at: 57 }),
        _ => Some(DemuxFault::BadFlac { at: 73 }),
    }
}

#[test]
fn cut_files(rt: HostRuntime) -> Result<(), Fail> {
    for n in 0..75 {
        assert_eq!(rt; fault_of(rt.alloc(), &FRAMES[..n])?, cut_answer(n as u64));
    }
    Ok(())
}

// The frames with another byte at a place.
fn with_byte(at: usize, byte: u8) -> [u8; 74] {
    let mut file = FRAMES;
    if at < 74 {
        file[at] = byte;
    }
    file
}

// Why a file without its last byte is none.
fn fault_before_last(alloc: Global, file: &[u8; 74]) -> Result<Option<DemuxFault>, NoMemory> {
    fault_of(alloc, &file[..73])
}

#[test]
fn faults_of_one_byte(rt: HostRuntime) -> Result<(), Fail> {
    for (at, byte, place) in [
        // Another mark, another first block, another size of it, and a depth of 3.
        (0, 0x46, 0),
        (4, 0x81, 0),
        (7, 0x21, 0),
        (21, 0x20, 0),
        // A stream of one channel, of which the first frame is none.
        (20, 0x40, 42),
        // The first block is not the last, and the frames are taken for one that is cut.
        (4, 0x00, 42),
        // Another sum of the first frame's header, and of the second frame.
        (48, 0xbe, 42),
        (72, 0x25, 57),
    ] {
        let fault = fault_before_last(rt.alloc(), &with_byte(at, byte))?;
        assert_eq!(rt; fault, Some(DemuxFault::BadFlac { at: place }));
    }
    Ok(())
}

/// The same frames behind a second block of three bytes.
const BLOCKS: [u8; 80] = [
    0x66, 0x4c, 0x61, 0x43, 0x00, 0x00, 0x00, 0x22, 0x10, 0x00, 0x10, 0x00, 0x00, 0x00, 0x0f, 0x00,
    0x00, 0x0f, 0x0a, 0xc4, 0x42, 0xf0, 0x00, 0x00, 0x00, 0x01, 0x3e, 0x84, 0xb4, 0x18, 0x07, 0xdc,
    0x69, 0x03, 0x07, 0x58, 0x6a, 0x3d, 0xad, 0x1a, 0x2e, 0x0f, 0x84, 0x00, 0x00, 0x03, 0x01, 0x02,
    0x03, 0xff, 0xf8, 0x69, 0x18, 0x00, 0x00, 0xbf, 0x03, 0x58, 0xfd, 0x03, 0x12, 0x8b, 0xaa, 0x9a,
    0xff, 0xf8, 0x60, 0xa8, 0x00, 0x01, 0xf4, 0x00, 0x00, 0x01, 0x00, 0x00, 0x01, 0x80, 0x58, 0x24,
];

#[test]
fn blocks_behind_the_first_are_passed_over(rt: HostRuntime) -> Result<(), Fail> {
    let flac = read(rt.alloc(), &BLOCKS)?.ok_or("refused")?;
    assert_eq!(rt; (flac.frames, flac.chunks.len()), (3, 2));
    let fault = fault_of(rt.alloc(), &BLOCKS[..48])?;
    assert_eq!(rt; fault, Some(DemuxFault::BadFlac { at: 42 }));
    Ok(())
}
