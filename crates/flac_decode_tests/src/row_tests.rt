// Single frames, and where they end.
ghost use Rattle.std.specs.Prelude.{◌≡◌, ◌≤◌, ◌<◌};

use crate::frames;
use flac_decode::{FrameFault, ReadFault, decode_frame, decode_front, frame_end};
use std::alloc::Global;
use std::process::Abort;
use std::test::Fail;
use wc_base::NoMemory;
use wc_config::StreamInfo;

/// The frame of the first example file of RFC 9639 (appendix D.1): one verbatim sample a channel, with wasted bits.
pub(crate) const FIRST: [u8; 15] = [
    0xff, 0xf8, 0x69, 0x18, 0x00, 0x00, 0xbf, 0x03, 0x58, 0xfd, 0x03, 0x12, 0x8b, 0xaa, 0x9a,
];

/// The same with a byte behind it.
pub(crate) const LONGER: [u8; 16] = [
    0xff, 0xf8, 0x69, 0x18, 0x00, 0x00, 0xbf, 0x03, 0x58, 0xfd, 0x03, 0x12, 0x8b, 0xaa, 0x9a, 0x00,
];

/// The same with another sum.
const OTHER_SUM: [u8; 15] = [
    0xff, 0xf8, 0x69, 0x18, 0x00, 0x00, 0xbf, 0x03, 0x58, 0xfd, 0x03, 0x12, 0x8b, 0xaa, 0x9b,
];

/// A frame in mid/side: both channels are constant, and the side is 3.
pub(crate) const MIDDLE: [u8; 16] = [
    0xff, 0xf8, 0x60, 0xa8, 0x00, 0x01, 0xf4, 0x00, 0x00, 0x01, 0x00, 0x00, 0x01, 0x80, 0x58, 0x24,
];

pub(crate) fn described(rate: u32, channels: u32, depth: u32) -> StreamInfo
    ensures { result.depth ≡ depth }
{
    StreamInfo {
        min_block: 4096,
        max_block: 4096,
        min_frame: 0,
        max_frame: 0,
        rate,
        channels,
        depth,
        total: 0,
        md5: [0; 16],
    }
}

/// The samples a channel of a frame and the bytes of all, or nothing where it is refused.
pub(crate) fn decoded(
    alloc: Global,
    frame: &[u8],
    info: &StreamInfo,
) -> Result<Option<(u32, Vec<u8>)>, NoMemory> {
    let mut residual = Vec::new(alloc);
    let mut samples = Vec::new(alloc);
    let mut out = Vec::new(alloc);
    match decode_frame(frame, info, &mut residual, &mut samples, &mut out) {
        Ok(block) => Ok(Some((block, out))),
        Err(FrameFault::Refused) => Ok(None),
        Err(FrameFault::NoMemory) => Err(NoMemory),
    }
}

#[test]
fn frames_of_known_samples(rt: HostRuntime) -> Result<(), Fail> {
    let info = described(44100, 2, 16);
    let (block, bytes) = decoded(rt.alloc(), &FIRST, &info)?.ok_or("refused")?;
    assert_eq!(rt; block, 1);
    assert_eq!(rt; bytes.as_slice(), [0xf4, 0x63, 0xb0, 0x28].as_slice());
    let (block, bytes) = decoded(rt.alloc(), &MIDDLE, &info)?.ok_or("refused")?;
    assert_eq!(rt; block, 2);
    assert_eq!(rt; bytes.as_slice(), [3, 0, 0, 0, 3, 0, 0, 0].as_slice());
    Ok(())
}

#[test]
fn frames_that_are_refused(rt: HostRuntime) -> Result<(), Fail> {
    let info = described(44100, 2, 16);
    for frame in [LONGER.as_slice(), OTHER_SUM.as_slice(), &[]] {
        assert!(rt; decoded(rt.alloc(), frame, &info)?.is_none());
    }
    let faster = described(48000, 2, 16);
    assert!(rt; decoded(rt.alloc(), &FIRST, &faster)?.is_none());
    let single = described(44100, 1, 16);
    assert!(rt; decoded(rt.alloc(), &FIRST, &single)?.is_none());
    let deeper = described(44100, 2, 24);
    assert!(rt; decoded(rt.alloc(), &FIRST, &deeper)?.is_none());
    Ok(())
}

#[test]
fn each_cut_of_a_frame_is_refused(rt: HostRuntime) -> Result<(), Fail> {
    let info = described(44100, 2, 16);
    for size in 0..15 {
        assert!(rt;
            decoded(rt.alloc(), &FIRST[..size], &info)?.is_none(),
            "of {size}"
        );
    }
    Ok(())
}

#[test]
fn each_changed_bit_of_a_frame_is_refused(rt: HostRuntime) -> Result<(), Fail> {
    let info = described(44100, 2, 16);
    for place in 0..15 {
        for mask in [1u8, 2, 4, 8, 16, 32, 64, 128] {
            let mut frame = FIRST;
            frame[place] ^= mask;
            assert!(rt;
                decoded(rt.alloc(), &frame, &info)?.is_none(),
                "{mask} of {place}"
            );
        }
    }
    Ok(())
}

#[test]
fn a_frame_ends_behind_its_sum(rt: HostRuntime) -> Result<(), Fail> {
    let info = described(44100, 2, 16);
    assert_eq!(rt; frame_end(rt.alloc(), &FIRST, &info)?, Some(15));
    assert_eq!(rt; frame_end(rt.alloc(), &LONGER, &info)?, Some(15));
    assert_eq!(rt; frame_end(rt.alloc(), &FIRST[..14], &info)?, None);
    Ok(())
}

/// The samples a channel of the frame in front of bytes, how many bytes it has, and its samples' bytes.
fn next(
    alloc: Global,
    bytes: &[u8],
    info: &StreamInfo,
) -> Result<(u32, usize, Vec<u8>), ReadFault> {
    let mut residual = Vec::new(alloc);
    let mut samples = Vec::new(alloc);
    let mut out = Vec::new(alloc);
    match decode_front(bytes, info, &mut residual, &mut samples, &mut out) {
        Ok(front) => Ok((front.block, front.size, out)),
        Err(e) => Err(e),
    }
}

#[test]
fn the_next_frame_of_a_stream(rt: HostRuntime) -> Result<(), Fail> {
    let info = described(44100, 2, 16);
    for frame in [FIRST.as_slice(), LONGER.as_slice()] {
        let (block, size, bytes) = next(rt.alloc(), frame, &info).ok().ok_or("refused")?;
        assert_eq!(rt; block, 1);
        assert_eq!(rt; size, 15);
        assert_eq!(rt; bytes.as_slice(), [0xf4, 0x63, 0xb0, 0x28].as_slice());
    }
    for size in 0..15 {
        let cut = next(rt.alloc(), &FIRST[..size], &info);
        assert!(rt; matches!(cut, Err(ReadFault::Short)), "of {size}");
    }
    let summed = next(rt.alloc(), &OTHER_SUM, &info);
    assert!(rt; matches!(summed, Err(ReadFault::Refused)));
    let marked = next(rt.alloc(), &FIRST[1..], &info);
    assert!(rt; matches!(marked, Err(ReadFault::Refused)));
    Ok(())
}

/// The checksum of bytes (FNV-1a, 64 bits).
fn checksum(bytes: &[u8]) -> u64 {
    let mut sum: u64 = 0xcbf2_9ce4_8422_2325;
    for byte in bytes {
        sum = (sum ^ u64::from(*byte)).wrapping_mul(0x100_0000_01b3);
    }
    sum
}

/// A frame, what its stream is described to be, and the checksum of what it was made of.
#[derive(Clone, Copy)]
struct Row<'a> {
    frame: &'a [u8],
    rate: u32,
    channels: u32,
    depth: u32,
    block: u32,
    sum: u64,
}

fn same_samples(rt: &impl Abort, alloc: Global, row: Row<'_>) -> Result<(), Fail> {
    assert!(rt; row.depth > 0 && row.depth <= 32);
    let info = described(row.rate, row.channels, row.depth);
    let (block, bytes) = decoded(alloc, row.frame, &info)?.ok_or("refused")?;
    assert_eq!(rt; block, row.block);
    assert_eq!(rt; checksum(&bytes), row.sum);
    Ok(())
}

/// The samples of frames of all kinds. Each checksum is that of the samples that `flac` 1.4.2 was given, sample by sample with
/// all channels, little-endian, depths up to 16 bits as 16 and others as 32, with zeros below.
#[test]
fn samples_as_they_were_coded(rt: HostRuntime) -> Result<(), Fail> {
    for row in [
        Row {
            frame: &frames::NOISE,
            rate: 8000,
            channels: 1,
            depth: 8,
            block: 16,
            sum: 0x39e0_8b2c_3410_e80e,
        },
        Row {
            frame: &frames::SWEEP,
            rate: 22050,
            channels: 1,
            depth: 12,
            block: 48,
            sum: 0x12f7_af8d_d873_d9fd,
        },
        Row {
            frame: &frames::SINE_AND_NOISE,
            rate: 44100,
            channels: 2,
            depth: 16,
            block: 32,
            sum: 0xde16_d157_c188_b55a,
        },
        Row {
            frame: &frames::NOISY_SINES,
            rate: 44100,
            channels: 2,
            depth: 16,
            block: 32,
            sum: 0xdb15_0295_3d70_6ea8,
        },
        Row {
            frame: &frames::CLOSE_CHANNELS,
            rate: 44100,
            channels: 2,
            depth: 16,
            block: 32,
            sum: 0x883b_afbb_9137_e423,
        },
        Row {
            frame: &frames::FAR_CHANNELS,
            rate: 44100,
            channels: 2,
            depth: 16,
            block: 32,
            sum: 0x7b16_1336_385b_4e78,
        },
        Row {
            frame: &frames::WASTED,
            rate: 96000,
            channels: 1,
            depth: 20,
            block: 32,
            sum: 0x10f2_c52b_552d_6c91,
        },
        Row {
            frame: &frames::SIX_CHANNELS,
            rate: 48000,
            channels: 6,
            depth: 16,
            block: 16,
            sum: 0x4f8e_9351_cd80_ba65,
        },
        Row {
            frame: &frames::LOUD,
            rate: 192000,
            channels: 2,
            depth: 32,
            block: 16,
            sum: 0x4bce_0c2f_ab3e_2997,
        },
        Row {
            frame: &frames::EIGHT_CHANNELS,
            rate: 44100,
            channels: 8,
            depth: 24,
            block: 16,
            sum: 0x93a9_a554_fa7b_ccd4,
        },
        Row {
            frame: &frames::SILENCE,
            rate: 44100,
            channels: 2,
            depth: 16,
            block: 64,
            sum: 0xd80a_c658_736b_b725,
        },
        Row {
            frame: &frames::SINES,
            rate: 16000,
            channels: 1,
            depth: 16,
            block: 160,
            sum: 0x70bd_3a74_895d_1054,
        },
    ] {
        same_samples(&rt, rt.alloc(), row)?;
    }
    Ok(())
}
