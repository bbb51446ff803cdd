// Frames of FLAC, found and decoded.
ghost use Rattle.std.specs.Prelude.{◌≡◌, ◌<◌, ◌≤◌, ◌*◌, ◌/◌, length, true, false, Some, None};
ghost use Rattle.codec_definitions.specs.Flac.{sample_size};
ghost use Rattle.codec_definitions.specs.Pcm.{sample_of, converted};
ghost use Rattle.flac_definitions.specs.Frame.{frame_of};
ghost use Rattle.flac_decode.specs.FrameEnd.{EndsAt};
ghost use Rattle.c_library.specs.Descriptions.{stream_of, has_depth};
ghost use Rattle.c_library.specs.Frames.{sample_in, samples_in, HasValues, IsDecoded, IsDecodedFront, IsNoFront, IsEndStatus, IsFrameStatus, IsFrontStatus};
ghost use Rattle.c_library.specs.Status.{done, refused, no_memory, too_small, invalid, need_more, fill_status, filled};

use crate::description::{FlacDescription, has_depth, stream_of};
use crate::status::{DONE, INVALID, NEED_MORE, NO_MEMORY, REFUSED, TOO_SMALL};
use flac_decode::{FrameFault, ReadFault, decode_frame, decode_front, frame_end};
use std::alloc::Global;
use wc_base::NoMemory;
use wc_config::StreamInfo;

/// Finds after how many bytes the frame ends with which `bytes` begin. `found` and `none` are the clause of
/// `flac_decode::frame_end`.
#[unsafe(no_mangle)]
pub extern "C" fn zemirako_flac_frame_end(
    alloc: Global,
    bytes: &[u8],
    description: &FlacDescription,
    end: &mut u64,
) -> u32
    ensures found { result ≡ done → EndsAt (stream_of description.now) bytes.now (Some end.new) }
    ensures none { result ≡ refused → EndsAt (stream_of description.now) bytes.now None }
    ensures kept { (result ≡ done → ⊥) → end.new ≡ end.old }
    ensures valid { has_depth description.now ≡ true → result ≡ invalid → ⊥ }
    ensures invalid { has_depth description.now ≡ false → result ≡ invalid }
    ensures status { IsEndStatus result }
{
    if !has_depth(description) {
        return INVALID;
    }
    match frame_end(alloc, bytes, &stream_of(description)) {
        Ok(Some(count)) => {
            *end = count;
            DONE
        }
        Ok(None) => REFUSED,
        Err(NoMemory) => NO_MEMORY,
    }
}

/// Decodes the frame that `frame` is: its samples, frame by frame, stand at the front of `samples`, and their count in each
/// channel in `block`. Where they do not fit, `block` says how many they are. `decoded` and `refused` are the clause
/// `decoded` of `flac_decode::decode_frame`, `fits` and `small` its clause `size`.
#[unsafe(no_mangle)]
pub extern "C" fn zemirako_flac_decode_frame(
    alloc: Global,
    frame: &[u8],
    description: &FlacDescription,
    samples: &mut [i32],
    block: &mut u32,
) -> u32
    ensures decoded { HasValues result → IsDecoded (stream_of description.now) frame.now block.new
        result samples.old samples.new }
    ensures fits { result ≡ done → block.new * description.now.channels ≤ length samples.old }
    ensures small { result ≡ too_small → length samples.old < block.new * description.now.channels }
    ensures refused { result ≡ refused → frame_of (stream_of description.now) frame.now ≡ None }
    ensures kept { (HasValues result → ⊥) → samples.new ≡ samples.old }
    ensures kept_block { (HasValues result → ⊥) → block.new ≡ block.old }
    ensures valid { has_depth description.now ≡ true → result ≡ invalid → ⊥ }
    ensures invalid { has_depth description.now ≡ false → result ≡ invalid }
    ensures status { IsFrameStatus result }
{
    if !has_depth(description) {
        return INVALID;
    }
    let info = stream_of(description);
    let mut residual = Vec::new(alloc);
    let mut wide = Vec::new(alloc);
    let mut bytes = Vec::new(alloc);
    match decode_frame(frame, &info, &mut residual, &mut wide, &mut bytes) {
        Ok(count) => {
            *block = count;
            whole_samples(&info, count, bytes.as_slice());
            put_samples(info.depth, bytes.as_slice(), samples)
        }
        Err(FrameFault::Refused) => REFUSED,
        Err(FrameFault::NoMemory) => NO_MEMORY,
    }
}

/// Decodes the frame with which `bytes` begin, in one pass: `size` says how many bytes it has, and its samples and `block`
/// are as of `zemirako_flac_decode_frame`. `decoded`, `refused` and `more` are the clause `decoded` of
/// `flac_decode::decode_front`, `fits` and `small` its clause `size`.
#[unsafe(no_mangle)]
pub extern "C" fn zemirako_flac_decode_next(
    alloc: Global,
    bytes: &[u8],
    description: &FlacDescription,
    samples: &mut [i32],
    block: &mut u32,
    size: &mut usize,
) -> u32
    ensures decoded { HasValues result → IsDecodedFront (stream_of description.now) bytes.now
        size.new block.new result samples.old samples.new }
    ensures fits { result ≡ done → block.new * description.now.channels ≤ length samples.old }
    ensures small { result ≡ too_small → length samples.old < block.new * description.now.channels }
    ensures refused { result ≡ refused → IsNoFront (stream_of description.now) bytes.now false }
    ensures more { result ≡ need_more → IsNoFront (stream_of description.now) bytes.now true }
    ensures kept { (HasValues result → ⊥) → samples.new ≡ samples.old }
    ensures kept_block { (HasValues result → ⊥) → block.new ≡ block.old }
    ensures kept_size { (HasValues result → ⊥) → size.new ≡ size.old }
    ensures valid { has_depth description.now ≡ true → result ≡ invalid → ⊥ }
    ensures invalid { has_depth description.now ≡ false → result ≡ invalid }
    ensures status { IsFrontStatus result }
{
    if !has_depth(description) {
        return INVALID;
    }
    let info = stream_of(description);
    let mut residual = Vec::new(alloc);
    let mut wide = Vec::new(alloc);
    let mut spelled = Vec::new(alloc);
    match decode_front(bytes, &info, &mut residual, &mut wide, &mut spelled) {
        Ok(front) => {
            *block = front.block;
            *size = front.size;
            whole_samples(&info, front.block, spelled.as_slice());
            put_samples(info.depth, spelled.as_slice(), samples)
        }
        Err(ReadFault::Refused) => REFUSED,
        Err(ReadFault::Short) => NEED_MORE,
        Err(ReadFault::NoMemory) => NO_MEMORY,
    }
}

/// A law: bytes of so many frames hold a sample of each channel for each of them.
fn whole_samples(info: &StreamInfo, block: u32, bytes: &[u8])
    requires { length bytes.now ≡ block * (info.now.channels * sample_size info.now.depth) }
    ensures { length bytes.now / sample_size info.now.depth ≡ block * info.now.channels }
{
    let _length = bytes.len();
}

/// Puts the samples that bytes spell at the front of some room, if they fit.
fn put_samples(depth: u32, bytes: &[u8], room: &mut [i32]) -> u32
    requires some { 1 ≤ depth }
    requires few { depth ≤ 32 }
    ensures status { result ≡ fill_status (samples_in depth bytes.now) room.old }
    ensures room { room.new ≡ filled (samples_in depth bytes.now) room.old }
    ensures fits { result ≡ done → length bytes.now / sample_size depth ≤ length room.old }
    ensures small { result ≡ too_small → length room.old < length bytes.now / sample_size depth }
{
    let size = sample_size(depth);
    let count = bytes.len() / size;
    if count > room.len() {
        return TOO_SMALL;
    }
    unpack(depth, bytes, &mut room[..count]);
    DONE
}

fn sample_size(depth: u32) -> usize
    ensures { result ≡ sample_size depth }
{
    if depth <= 16 { 2 } else { 4 }
}

/// All samples that bytes spell, at their depth.
fn unpack(depth: u32, bytes: &[u8], room: &mut [i32])
    requires some { 1 ≤ depth }
    requires few { depth ≤ 32 }
    requires room { length room.old ≡ length bytes.now / sample_size depth }
    ensures { room.new ≡ samples_in depth bytes.now }
{
    for i in 0..room.len() {
        room[i] = sample_in(depth, bytes, i);
    }
}

/// The sample at a place, at its depth: zeros below it are dropped.
fn sample_in(depth: u32, bytes: &[u8], i: usize) -> i32
    requires some { 1 ≤ depth }
    requires few { depth ≤ 32 }
    requires there { i < length bytes.now / sample_size depth }
    ensures { result ≡ sample_in depth bytes.now i }
{
    if depth <= 16 {
        narrowed(two_bytes(&bytes[2 * i..2 * i + 2]), 16, depth)
    } else {
        narrowed(four_bytes(&bytes[4 * i..4 * i + 4]), 32, depth)
    }
}

/// The number that two bytes spell.
fn two_bytes(sample: &[u8]) -> i32
    requires { length sample.now ≡ 2 }
    ensures { result ≡ sample_of 2 sample.now }
{
    i16::from_le_bytes([sample[0], sample[1]]) as i32
}

/// The number that four bytes spell.
fn four_bytes(sample: &[u8]) -> i32
    requires { length sample.now ≡ 4 }
    ensures { result ≡ sample_of 4 sample.now }
{
    i32::from_le_bytes([sample[0], sample[1], sample[2], sample[3]])
}

/// A sample of so many bits, given fewer or as many.
fn narrowed(value: i32, from: u32, to: u32) -> i32
    requires some { 1 ≤ to }
    requires from { from ≤ 32 }
    requires to { to ≤ from }
    ensures { result ≡ converted from to value }
{
    if from == to {
        value
    } else {
        value >> (from - to)
    }
}
