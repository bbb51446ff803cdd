// WAV files that are whole, cut and faulty.
ghost use Rattle.std.specs.Prelude.{◌≡◌, ◌≤◌, ◌<◌};

use chunk_files::{DemuxFault, Stop};
use std::alloc::Global;
use std::test::Fail;
use wc_base::NoMemory;
use wc_config::CodecId;
use wc_demux::{Wav, read_wav};

/// Two frames of one channel, 16 bits, 8000 a second: 1 and 2.
pub(crate) const TWO_FRAMES: [u8; 48] = [
    0x52, 0x49, 0x46, 0x46, 0x28, 0x00, 0x00, 0x00, 0x57, 0x41, 0x56, 0x45, 0x66, 0x6d, 0x74, 0x20,
    0x10, 0x00, 0x00, 0x00, 0x01, 0x00, 0x01, 0x00, 0x40, 0x1f, 0x00, 0x00, 0x80, 0x3e, 0x00, 0x00,
    0x02, 0x00, 0x10, 0x00, 0x64, 0x61, 0x74, 0x61, 0x04, 0x00, 0x00, 0x00, 0x01, 0x00, 0x02, 0x00,
];

/// An extensible format of two channels of mu-law, behind a part of an odd size, and four bytes and one of data, of which
/// the last is not there.
const EXTENSIBLE: [u8; 80] = [
    0x52, 0x49, 0x46, 0x46, 0x00, 0x00, 0x00, 0x00, 0x57, 0x41, 0x56, 0x45, 0x4c, 0x49, 0x53, 0x54,
    0x01, 0x00, 0x00, 0x00, 0x2a, 0x00, 0x66, 0x6d, 0x74, 0x20, 0x28, 0x00, 0x00, 0x00, 0xfe, 0xff,
    0x02, 0x00, 0xe8, 0x03, 0x00, 0x00, 0x00, 0x00, 0x00, 0x00, 0x02, 0x00, 0x08, 0x00, 0x16, 0x00,
    0x08, 0x00, 0x03, 0x00, 0x00, 0x00, 0x07, 0x00, 0x00, 0x00, 0x00, 0x00, 0x10, 0x00, 0x80, 0x00,
    0x00, 0xaa, 0x00, 0x38, 0x9b, 0x71, 0x64, 0x61, 0x74, 0x61, 0xff, 0x00, 0x00, 0x00, 0x01, 0x02,
];

/// The first fault of a file, or none.
pub(crate) fn fault_of(alloc: Global, bytes: &[u8]) -> Result<Option<DemuxFault>, NoMemory> {
    match read_wav(alloc, bytes, 1024) {
        Ok(_) => Ok(None),
        Err(Stop::Fault(fault)) => Ok(Some(fault)),
        Err(Stop::NoMemory) => Err(NoMemory),
    }
}

fn read(alloc: Global, bytes: &[u8], per_chunk: u32) -> Result<Option<Wav>, NoMemory>
    requires { 1 ≤ per_chunk }
{
    match read_wav(alloc, bytes, per_chunk) {
        Ok(wav) => Ok(Some(wav)),
        Err(Stop::Fault(_)) => Ok(None),
        Err(Stop::NoMemory) => Err(NoMemory),
    }
}

#[test]
fn two_frames(rt: HostRuntime) -> Result<(), Fail> {
    let wav = read(rt.alloc(), &TWO_FRAMES, 1024)?.ok_or("refused")?;
    assert_eq!(rt; wav.codec, CodecId::PcmS16);
    assert_eq!(rt; (wav.rate, wav.channels, wav.frames), (8000, 1, 2));
    let chunks = wav.chunks.as_slice();
    assert_eq!(rt; chunks.len(), 1);
    assert_eq!(rt; chunks[0].bytes.as_slice(), [1, 0, 2, 0].as_slice());
    assert_eq!(rt; (chunks[0].timestamp, chunks[0].duration), (0, Some(250)));
    assert!(rt; chunks[0].key);
    Ok(())
}

#[test]
fn two_frames_in_two_chunks(rt: HostRuntime) -> Result<(), Fail> {
    let wav = read(rt.alloc(), &TWO_FRAMES, 1)?.ok_or("refused")?;
    let chunks = wav.chunks.as_slice();
    assert_eq!(rt; chunks.len(), 2);
    assert_eq!(rt; chunks[0].bytes.as_slice(), [1, 0].as_slice());
    assert_eq!(rt; (chunks[0].timestamp, chunks[0].duration), (0, Some(125)));
    assert_eq!(rt; chunks[1].bytes.as_slice(), [2, 0].as_slice());
    assert_eq!(rt; (chunks[1].timestamp, chunks[1].duration), (125, Some(125)));
    Ok(())
}

#[test]
fn an_extensible_format_behind_an_odd_part(rt: HostRuntime) -> Result<(), Fail> {
    let wav = read(rt.alloc(), &EXTENSIBLE, 1024)?.ok_or("refused")?;
    assert_eq!(rt; wav.codec, CodecId::Ulaw);
    assert_eq!(rt; (wav.rate, wav.channels, wav.frames), (1000, 2, 1));
    let chunks = wav.chunks.as_slice();
    assert_eq!(rt; chunks.len(), 1);
    assert_eq!(rt; chunks[0].bytes.as_slice(), [1, 2].as_slice());
    Ok(())
}

#[test]
fn a_frame_that_is_not_whole_is_cut_off(rt: HostRuntime) -> Result<(), Fail> {
    let wav = read(rt.alloc(), &TWO_FRAMES[..47], 1024)?.ok_or("refused")?;
    assert_eq!(rt; wav.frames, 1);
    let none = read(rt.alloc(), &TWO_FRAMES[..44], 1024)?.ok_or("refused")?;
    assert_eq!(rt; (none.frames, none.chunks.len()), (0, 0));
    Ok(())
}

fn cut_answer(n: u64) -> Option<DemuxFault> {
    match n {
        0..=3 => Some(DemuxFault::BadWav { at: 0 }),
        4..=11 => Some(DemuxFault::BadWav { at: 8 }),
        12 => Some(DemuxFault::BadWav { at: 12 }),
        13..=35 => Some(DemuxFault::BadWav { at: 12 }),
        36 => Some(DemuxFault::BadWav { at: 36 }),
        37..=43 => Some(DemuxFault::BadWav { at: 36 }),
        _ => None,
    }
}

#[test]
fn cut_files(rt: HostRuntime) -> Result<(), Fail> {
    for n in 0..49 {
        assert_eq!(rt;
            fault_of(rt.alloc(), &TWO_FRAMES[..n])?,
            cut_answer(n as u64)
        );
    }
    Ok(())
}

fn with_byte(at: usize, byte: u8) -> [u8; 48] {
    let mut file = TWO_FRAMES;
    if at < 48 {
        file[at] = byte;
    }
    file
}

#[test]
fn faults_of_one_byte(rt: HostRuntime) -> Result<(), Fail> {
    for (at, byte, fault) in [
        // Another mark, another form, and a size of the whole that is not looked at.
        (0, 0x72, Some(DemuxFault::BadWav { at: 0 })),
        (8, 0x77, Some(DemuxFault::BadWav { at: 8 })),
        (4, 0xff, None),
        // No `fmt ` before `data`, a format that is too short, and one that is cut.
        (12, 0x46, Some(DemuxFault::BadWav { at: 36 })),
        (16, 0x0f, Some(DemuxFault::BadWav { at: 12 })),
        (16, 0x1d, Some(DemuxFault::BadWav { at: 12 })),
        // An unknown tag, unknown bits, no channel, more channels, and another frame size; the byte rate is not looked at.
        (20, 0x03, Some(DemuxFault::Unsupported { tag: 3, bits: 16 })),
        (34, 0x0c, Some(DemuxFault::Unsupported { tag: 1, bits: 12 })),
        (22, 0x00, Some(DemuxFault::BadWav { at: 12 })),
        (22, 0x02, Some(DemuxFault::BadWav { at: 12 })),
        (32, 0x04, Some(DemuxFault::BadWav { at: 12 })),
        (28, 0x00, None),
        // No `data`.
        (36, 0x44, Some(DemuxFault::BadWav { at: 48 })),
    ] {
        assert_eq!(rt; fault_of(rt.alloc(), &with_byte(at, byte))?, fault);
    }
    Ok(())
}
