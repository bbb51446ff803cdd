// One block, coded.
ghost use Rattle.std.specs.Prelude.{◌≡◌, ◌<◌, ◌≤◌, ◌+◌, ◌*◌, ◌/◌, ◌%◌, ◌^◌, ◌++◌, true, length, map, IfOk, OnOk};
ghost use Rattle.std.specs.List.{range_with_len, flat_map};
ghost use Rattle.flac_definitions.specs.Bits.{bits_in};
ghost use Rattle.flac_definitions.specs.FixedPredictors.{at};
ghost use Rattle.flac_definitions.specs.SubframeWriting.{HasDepth, HaveDepth};
ghost use Rattle.flac_definitions.specs.Modes.{IsFormat, IsBlock};
ghost use Rattle.flac_definitions.specs.FrameWriting.{frame_bits};
ghost use Rattle.codec_definitions.specs.FlacCode.{format_of, channel_apart, apart, bytes_with, flac_code};
ghost use Rattle.flac_encode.specs.Steps.{IsRanged};

use bytes::Bytes;
use flac_blocks::{BlockFormat, encode_block};
use std::alloc::Global;
use wc_base::NoMemory;
use wc_config::AudioEncoderConfig;

/// The bytes of the frame of a block of 1 to 65535 frames, whose samples stand frame by frame.
pub fn code_block(
    alloc: Global,
    config: &AudioEncoderConfig,
    number: u32,
    values: &[i32],
) -> Result<Bytes, NoMemory>
    requires ranged { IsRanged config.now }
    requires number { number < 2 ^ 31 }
    requires some { 0 < length values.now }
    requires few { length values.now ≤ 65535 * config.now.channels }
    requires whole { length values.now % config.now.channels ≡ 0 }
    requires fit { HaveDepth config.now.depth values.now }
    ensures { IfOk result (λ b. b ≡ flac_code config.now number values.now) }
{
    let frames = values.len() / config.channels as usize;
    let samples = apart(alloc, config.channels as usize, config.depth, values)?;
    let bytes = encode_block(
        alloc,
        format_of(config),
        frames as u32,
        number,
        samples.as_slice(),
    )?;
    bytes_are_of_bits(bytes.as_slice());
    match Bytes::from_vec(bytes) {
        Ok(bytes) => Ok(bytes),
        Err(_) => Err(NoMemory),
    }
}

/// A law: bytes are those of their bits.
pub fn bytes_are_of_bits(bytes: &[u8])
    ensures { bytes.now ≡ bytes_with (bits_in bytes.now) }
{
    let _count = bytes.len();
}

/// The format of a config's blocks.
fn format_of(config: &AudioEncoderConfig) -> BlockFormat
    requires { IsRanged config.now }
    ensures value { result ≡ format_of config.now }
    ensures format { IsFormat result }
{
    BlockFormat {
        rate: config.rate,
        channels: config.channels as u8,
        depth: config.depth as u8,
        level: config.level as u8,
    }
}

/// Samples that stand frame by frame, one channel after another.
fn apart(alloc: Global, channels: usize, depth: u32, values: &[i32]) -> Result<Vec<i32>, NoMemory>
    requires some { 0 < channels }
    requires few { channels ≤ 8 }
    requires fit { HaveDepth depth values.now }
    ensures value { IfOk result (λ v. v.items ≡ apart channels values.now) }
    ensures fit { IfOk result (λ v. HaveDepth depth v.items) }
{
    let mut out = Vec::with_capacity(alloc, values.len())?;
    for channel in 0..channels {
        push_channel(alloc, channels, depth, values, channel, &mut out)?;
    }
    Ok(out)
}

/// Appends the samples of a channel.
#[tactic(auto, using(crate::proofs::Filled::fits_both))]
fn push_channel(
    alloc: Global,
    channels: usize,
    depth: u32,
    values: &[i32],
    channel: usize,
    out: &mut Vec<i32>,
) -> Result<(), NoMemory>
    requires some { 0 < channels }
    requires few { channels ≤ 8 }
    requires channel { channel < channels }
    requires fit { HaveDepth depth values.now }
    requires so_far { HaveDepth depth out.old.items }
    ensures value { OnOk result
        (out.new.items ≡ out.old.items ++ channel_apart channels values.now channel) }
    ensures fit { OnOk result (HaveDepth depth out.new.items) }
{
    let mut more = Vec::from_elem(alloc, 0, values.len() / channels)?;
    fill_channel(channels, depth, values, channel, more.as_mut_slice());
    Ok(out.append(&mut more)?)
}

/// Writes the samples of a channel: in a loop of its own where there are one or two.
fn fill_channel(channels: usize, depth: u32, values: &[i32], channel: usize, out: &mut [i32])
    requires some { 0 < channels }
    requires few { channels ≤ 8 }
    requires channel { channel < channels }
    requires fit { HaveDepth depth values.now }
    requires count { length out.old ≡ length values.now / channels }
    ensures value { out.new ≡ channel_apart channels values.now channel }
    ensures fit { HaveDepth depth out.new }
{
    match channels {
        1 => fill_each(1, depth, values, channel, out),
        2 => fill_each(2, depth, values, channel, out),
        _ => fill_each(channels, depth, values, channel, out),
    }
}

/// The same in one loop, which the compiler makes for each count of channels that it is called with.
#[inline(always)]
fn fill_each(channels: usize, depth: u32, values: &[i32], channel: usize, out: &mut [i32])
    requires some { 0 < channels }
    requires few { channels ≤ 8 }
    requires channel { channel < channels }
    requires fit { HaveDepth depth values.now }
    requires count { length out.old ≡ length values.now / channels }
    ensures value { out.new ≡ channel_apart channels values.now channel }
    ensures fit { HaveDepth depth out.new }
{
    let _depth = depth;
    for i in 0..out.len() {
        out[i] = sample_at(channels, values, channel, i);
    }
}

/// A channel's sample of a frame.
#[inline]
fn sample_at(channels: usize, values: &[i32], channel: usize, i: usize) -> i32
    requires few { channels ≤ 8 }
    requires channel { channel < channels }
    requires within { i < length values.now / channels }
    ensures value { result ≡ at values.now (i * channels + channel) }
    ensures there { i * channels + channel < length values.now }
{
    values[i * channels + channel]
}
