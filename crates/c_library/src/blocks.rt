// Blocks of FLAC, coded.
ghost use Rattle.std.specs.Prelude.{◌≡◌, ◌<◌, ◌^◌, ◌⊎◌, true, false};
ghost use Rattle.flac_definitions.specs.Modes.{IsFormat, IsBlock};
ghost use Rattle.c_library.specs.Blocks.{format_of, IsCoded, CanBeCoded, IsBlockStatus, IsRoom, most_bytes};
ghost use Rattle.c_library.specs.Frames.{HasValues};
ghost use Rattle.c_library.specs.Status.{done, no_memory, too_small, invalid};

use crate::status::{INVALID, NO_MEMORY, put_bytes};
use flac_block_laws::written_frames_are_read;
use flac_blocks::{BlockFormat, encode_block, is_block, is_format};
use std::alloc::Global;
use wc_base::NoMemory;

/// What the blocks of a stream have in common: `rate` frames a second, 1 to 8 `channels`, `depth` bits a sample (8, 16, 24
/// or 32), and the `level` at which they are coded, 0 to 8.
#[repr(C)]
#[derive(Clone, Copy, Debug, PartialEq, Eq)]
pub struct FlacFormat {
    pub rate: u32,
    pub channels: u8,
    pub depth: u8,
    pub level: u8,
}

/// Codes a block of 1 to 65535 frames, whose channels stand one after another, with a number below 2^31: the bytes of its
/// frame stand at the front of `bytes`, and `size` says how many they are, also where they do not fit. `coded` is the clause
/// of `flac_blocks::encode_block`.
#[unsafe(no_mangle)]
pub extern "C" fn zemirako_flac_encode_block(
    alloc: Global,
    format: &FlacFormat,
    block: u32,
    number: u32,
    samples: &[i32],
    bytes: &mut [u8],
    size: &mut usize,
) -> u32
    ensures coded { HasValues result → IsCoded (format_of format.now) block number samples.now
        size.new result bytes.old bytes.new }
    ensures kept { (HasValues result → ⊥) → bytes.new ≡ bytes.old }
    ensures kept_size { (HasValues result → ⊥) → size.new ≡ size.old }
    ensures valid { CanBeCoded (format_of format.now) block number samples.now
        → result ≡ invalid → ⊥ }
    ensures invalid { (CanBeCoded (format_of format.now) block number samples.now → ⊥)
        → result ≡ invalid }
    ensures status { IsBlockStatus result }
{
    let format = format_of(format);
    if !can_be_coded(format, block, number, samples) {
        return INVALID;
    }
    match encode_block(alloc, format, block, number, samples) {
        Ok(frame) => {
            *size = frame.len();
            put_bytes(frame.as_slice(), bytes)
        }
        Err(NoMemory) => NO_MEMORY,
    }
}

/// How many bytes the frame of a block of so many frames has at most, whatever its samples and its number are: by the lengths
/// of the law `flac_block_laws::written_frames_are_read`.
#[unsafe(no_mangle)]
pub extern "C" fn zemirako_flac_most_bytes(format: &FlacFormat, block: u32) -> usize
    ensures room { IsRoom (format_of format.now) block result }
    ensures size { result ≡ most_bytes (format_of format.now) block }
{
    written_frames_are_read();
    let bits = format.depth as usize * block as usize + 8;
    (format.channels as usize * bits + 127) / 8
}

fn format_of(format: &FlacFormat) -> BlockFormat
    ensures { result ≡ format_of format.now }
{
    BlockFormat {
        rate: format.rate,
        channels: format.channels,
        depth: format.depth,
        level: format.level,
    }
}

fn can_be_coded(format: BlockFormat, block: u32, number: u32, samples: &[i32]) -> bool
    ensures yes { result ≡ true → CanBeCoded format block number samples.now }
    ensures no { result ≡ false → CanBeCoded format block number samples.now → ⊥ }
{
    if !is_format(format) || number >= 1 << 31 {
        return false;
    }
    is_block(format, block, samples)
}
