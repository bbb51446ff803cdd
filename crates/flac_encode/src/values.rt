// Samples at a config's depth.
ghost use Rattle.std.specs.Prelude.{◌≡◌, ◌<◌, ◌≤◌, ◌*◌, ◌+◌, ◌-◌, ◌^◌, ◌++◌, ◌∷◌, [], true, false, length, take, drop, map, OnOk, pos, neg_ℤ, ◌≤ℤ◌, ◌<ℤ◌};
ghost use Rattle.std.specs.List.{range_with_len};
ghost use Rattle.wc_config.specs.Configs.{is_depth};
ghost use Rattle.codec_definitions.specs.Pcm.{format_size, place_of, is_planar, is_whole, converted, sample_of};
ghost use Rattle.sample_conversion.specs.Sizes.{is_format_size};
ghost use Rattle.flac_definitions.specs.SubframeWriting.{HasDepth, HaveDepth};
ghost use Rattle.codec_definitions.specs.FlacEncoder.{value_at, frame_values, values_in};
ghost use Rattle.flac_encode.specs.Runs.{run_value};

use sample_conversion::{format_size, is_planar};
use std::alloc::Global;
use wc_base::{NoMemory, SoundShape};
use wc_config::AudioEncoderConfig;

/// Appends the samples of an input at the config's depth, frame by frame.
pub fn push_values(
    alloc: Global,
    config: &AudioEncoderConfig,
    shape: &SoundShape,
    bytes: &[u8],
    out: &mut Vec<i32>,
) -> Result<(), NoMemory>
    requires channels { shape.now.channels ≤ 8 }
    requires same { config.now.channels ≡ shape.now.channels }
    requires depth { is_depth config.now.depth ≡ true }
    requires whole { is_whole shape.now bytes.now ≡ true }
    requires fit { HaveDepth config.now.depth out.old.items }
    ensures values { OnOk result (out.new.items ≡ out.old.items
        ++ values_in config.now (record { shape = shape.now; bytes = bytes.now })) }
    ensures fit { OnOk result (HaveDepth config.now.depth out.new.items) }
{
    out.reserve(shape.frames as usize * shape.channels as usize)?;
    if is_planar(shape.format) {
        push_frames(config, shape, bytes, out)
    } else {
        push_in_turn(alloc, config, shape, bytes, out)
    }
}

/// The same, frame by frame.
fn push_frames(
    config: &AudioEncoderConfig,
    shape: &SoundShape,
    bytes: &[u8],
    out: &mut Vec<i32>,
) -> Result<(), NoMemory>
    requires channels { shape.now.channels ≤ 8 }
    requires same { config.now.channels ≡ shape.now.channels }
    requires depth { is_depth config.now.depth ≡ true }
    requires whole { is_whole shape.now bytes.now ≡ true }
    requires fit { HaveDepth config.now.depth out.old.items }
    ensures values { OnOk result (out.new.items ≡ out.old.items
        ++ values_in config.now (record { shape = shape.now; bytes = bytes.now })) }
    ensures fit { OnOk result (HaveDepth config.now.depth out.new.items) }
{
    for frame in 0..shape.frames {
        push_frame(config, shape, bytes, frame, out)?;
    }
    Ok(())
}

/// The same of samples that already stand in this order.
fn push_in_turn(
    alloc: Global,
    config: &AudioEncoderConfig,
    shape: &SoundShape,
    bytes: &[u8],
    out: &mut Vec<i32>,
) -> Result<(), NoMemory>
    requires same { config.now.channels ≡ shape.now.channels }
    requires depth { is_depth config.now.depth ≡ true }
    requires whole { is_whole shape.now bytes.now ≡ true }
    requires in_turn { is_planar shape.now.format ≡ false }
    requires fit { HaveDepth config.now.depth out.old.items }
    ensures values { OnOk result (out.new.items ≡ out.old.items
        ++ values_in config.now (record { shape = shape.now; bytes = bytes.now })) }
    ensures fit { OnOk result (HaveDepth config.now.depth out.new.items) }
{
    let size = format_size(shape.format);
    let count = shape.frames as usize * shape.channels as usize;
    push_run(alloc, size, config.depth, count, bytes, out)
}

/// Appends so many samples at a depth.
#[tactic(auto, using(crate::proofs::Filled::fits_both))]
fn push_run(
    alloc: Global,
    size: usize,
    depth: u32,
    count: usize,
    bytes: &[u8],
    out: &mut Vec<i32>,
) -> Result<(), NoMemory>
    requires size { is_format_size size ≡ true }
    requires depth { is_depth depth ≡ true }
    requires whole { count * size ≡ length bytes.now }
    requires fit { HaveDepth depth out.old.items }
    ensures values { OnOk result (out.new.items ≡ out.old.items
        ++ map (run_value size depth bytes.now) (range_with_len 0 count)) }
    ensures fit { OnOk result (HaveDepth depth out.new.items) }
{
    let mut values = Vec::from_elem(alloc, 0, count)?;
    fill(size, depth, bytes, values.as_mut_slice());
    Ok(out.append(&mut values)?)
}

/// Writes samples at a depth: a loop of its own for each format that has the depth already.
fn fill(size: usize, depth: u32, bytes: &[u8], out: &mut [i32])
    requires size { is_format_size size ≡ true }
    requires depth { is_depth depth ≡ true }
    requires whole { length out.old * size ≡ length bytes.now }
    ensures values { out.new
        ≡ map (run_value size depth bytes.now) (range_with_len 0 (length out.old)) }
    ensures fit { HaveDepth depth out.new }
{
    match (size, depth) {
        (1, 8) => fill_run(1, 8, bytes, out),
        (2, 16) => fill_run(2, 16, bytes, out),
        (4, 24) => fill_run(4, 24, bytes, out),
        (4, 32) => fill_run(4, 32, bytes, out),
        _ => fill_run(size, depth, bytes, out),
    }
}

/// The same in one loop, which the compiler makes for each size and depth that it is called with.
#[inline(always)]
fn fill_run(size: usize, depth: u32, bytes: &[u8], out: &mut [i32])
    requires size { is_format_size size ≡ true }
    requires depth { is_depth depth ≡ true }
    requires whole { length out.old * size ≡ length bytes.now }
    ensures values { out.new
        ≡ map (run_value size depth bytes.now) (range_with_len 0 (length out.old)) }
    ensures fit { HaveDepth depth out.new }
{
    for i in 0..out.len() {
        out[i] = run_value(size, depth, bytes, i);
    }
}

/// One of samples that stand one after another, at a depth.
#[inline]
fn run_value(size: usize, depth: u32, bytes: &[u8], i: usize) -> i32
    requires size { is_format_size size ≡ true }
    requires depth { is_depth depth ≡ true }
    requires within { size * i + size ≤ length bytes.now }
    ensures value { result ≡ run_value size depth bytes.now i }
    ensures fit { HasDepth depth result }
{
    let sample = run_sample(size, bytes, i);
    converted(spelled_value(sample), 8 * sample.len() as u32, depth)
}

/// The bytes of one of samples that stand one after another.
#[inline]
fn run_sample(size: usize, bytes: &[u8], i: usize) -> &[u8]
    requires size { is_format_size size ≡ true }
    requires within { size * i + size ≤ length bytes.now }
    ensures value { result.now ≡ take size (drop (size * i) bytes.now) }
    ensures size { length result.now ≡ size }
{
    &bytes[size * i..size * i + size]
}

/// Appends the samples of a frame.
fn push_frame(
    config: &AudioEncoderConfig,
    shape: &SoundShape,
    bytes: &[u8],
    frame: u32,
    out: &mut Vec<i32>,
) -> Result<(), NoMemory>
    requires channels { shape.now.channels ≤ 8 }
    requires same { config.now.channels ≡ shape.now.channels }
    requires depth { is_depth config.now.depth ≡ true }
    requires whole { is_whole shape.now bytes.now ≡ true }
    requires frame { frame < shape.now.frames }
    requires fit { HaveDepth config.now.depth out.old.items }
    ensures values { OnOk result (out.new.items ≡ out.old.items
        ++ frame_values config.now (record { shape = shape.now; bytes = bytes.now }) frame) }
    ensures fit { OnOk result (HaveDepth config.now.depth out.new.items) }
{
    for channel in 0..config.channels {
        let value = value_at(config, shape, bytes, frame, channel);
        push_value(value, out)?;
    }
    Ok(())
}

/// Appends a value.
#[inline]
fn push_value(value: i32, out: &mut Vec<i32>) -> Result<(), NoMemory>
    ensures { OnOk result (out.new.items ≡ out.old.items ++ value ∷ []) }
{
    match out.push(value) {
        Ok(()) => Ok(()),
        Err(_) => Err(NoMemory),
    }
}

/// A channel's sample of a frame.
fn value_at(
    config: &AudioEncoderConfig,
    shape: &SoundShape,
    bytes: &[u8],
    frame: u32,
    channel: u32,
) -> i32
    requires channels { shape.now.channels ≤ 8 }
    requires whole { is_whole shape.now bytes.now ≡ true }
    requires frame { frame < shape.now.frames }
    requires channel { channel < shape.now.channels }
    requires depth { is_depth config.now.depth ≡ true }
    ensures value { result
        ≡ value_at config.now (record { shape = shape.now; bytes = bytes.now }) frame channel }
    ensures fit { HasDepth config.now.depth result }
{
    let sample = sample_at(shape, bytes, frame, channel);
    converted(spelled_value(sample), 8 * sample.len() as u32, config.depth)
}

/// The bytes of a channel's sample of a frame.
fn sample_at<'a>(shape: &SoundShape, bytes: &'a [u8], frame: u32, channel: u32) -> &'a [u8]
    requires channels { shape.now.channels ≤ 8 }
    requires whole { is_whole shape.now bytes.now ≡ true }
    requires frame { frame < shape.now.frames }
    requires channel { channel < shape.now.channels }
    ensures value { result.now ≡ take (format_size shape.now.format)
        (drop (format_size shape.now.format * place_of shape.now frame channel) bytes.now) }
    ensures size { length result.now ≡ format_size shape.now.format }
    ensures format { is_format_size (format_size shape.now.format) ≡ true }
{
    let size = format_size(shape.format);
    let place = place_of(shape, frame, channel);
    &bytes[size * place..size * place + size]
}

/// Where the sample stands among all.
fn place_of(shape: &SoundShape, frame: u32, channel: u32) -> usize
    requires channels { shape.now.channels ≤ 8 }
    requires frame { frame < shape.now.frames }
    requires channel { channel < shape.now.channels }
    ensures value { result ≡ place_of shape.now frame channel }
    ensures within { result < shape.now.frames * shape.now.channels }
{
    if is_planar(shape.format) {
        channel as usize * shape.frames as usize + frame as usize
    } else {
        frame as usize * shape.channels as usize + channel as usize
    }
}

/// The number that a sample spells.
fn spelled_value(sample: &[u8]) -> i32
    requires { is_format_size (length sample.now) ≡ true }
    ensures value { result ≡ sample_of (length sample.now) sample.now }
    ensures fit { HasDepth (8 * length sample.now) result }
{
    match sample.len() {
        1 => sample[0] as i32 - 128,
        2 => i16::from_le_bytes([sample[0], sample[1]]) as i32,
        _ => i32::from_le_bytes([sample[0], sample[1], sample[2], sample[3]]),
    }
}

/// A sample of so many bits, given so many others.
fn converted(value: i32, from: u32, to: u32) -> i32
    requires from { is_depth from ≡ true }
    requires to { is_depth to ≡ true }
    requires fit { HasDepth from value }
    ensures value { result ≡ converted from to value }
    ensures fit { HasDepth to result }
{
    if from == to {
        return value;
    }
    match (from, to) {
        (8, 16) | (16, 24) | (24, 32) => value * 256,
        (8, 24) | (16, 32) => value * 65_536,
        (8, 32) => value * 16_777_216,
        (16, 8) | (24, 16) | (32, 24) => value >> 8,
        (24, 8) | (32, 16) => value >> 16,
        _ => value >> 24,
    }
}
