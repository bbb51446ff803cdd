// Frames of blocks, written.
ghost use Rattle.std.specs.Prelude.{◌≡◌, ◌<◌, ◌≤◌, ◌+◌, ◌*◌, ◌%◌, ◌^◌, ◌++◌, length, IfOk, OnOk};
ghost use Rattle.flac_definitions.specs.Bits.{bits_in};
ghost use Rattle.flac_definitions.specs.Modes.{assignment_of, channel_of, coded_depth, channel_candidate, best_mode, IsFormat, IsBlock, IsModeOf, AreChoices};
ghost use Rattle.flac_blocks.specs.Search.{AreFitting};
ghost use Rattle.flac_definitions.specs.FrameWriting.{header_of, channel_spelled, channels_spelled, padded, summed, mode_frame_bits, frame_bits};

use crate::choice::{best_block, channel_of};
use flac_definitions::{BlockChoice, BlockFormat, ChannelMode};
use flac_subframes::write_subframe;
use flac_write::{BitWriter, FrameHeader, write_header};
use std::alloc::Global;
use wc_base::NoMemory;

/// The bytes of the frame of a block of 1 to 65535 frames, whose channels stand one after another, with a number below
/// 2^31: the header, a subframe for each coded channel of the best block, zeros up to a byte, and the CRC-16 (RFC 9639,
/// section 9). Takes memory for these bytes and while it searches; after a want of memory nothing is left of them.
pub fn encode_block(
    alloc: Global,
    format: BlockFormat,
    block: u32,
    number: u32,
    samples: &[i32],
) -> Result<Vec<u8>, NoMemory>
    requires format { IsFormat format }
    requires block { IsBlock format block samples.now }
    requires number { number < 2 ^ 31 }
    ensures { IfOk result
        (λ v. bits_in v.items ≡ frame_bits format block number samples.now) }
{
    let choice = best_block(alloc, format, block, samples)?;
    write_frame(alloc, format, block, number, &choice)
}

/// The frame of a block by a choice for it.
fn write_frame(
    alloc: Global,
    format: BlockFormat,
    block: u32,
    number: u32,
    choice: &BlockChoice,
) -> Result<Vec<u8>, NoMemory>
    requires format { IsFormat format }
    requires mode { IsModeOf format choice.now.mode }
    requires some { 0 < block }
    requires few { block ≤ 65535 }
    requires number { number < 2 ^ 31 }
    requires count { length choice.now.coded.items ≡ format.channels * block }
    requires fit { AreFitting format choice.now.mode block choice.now.coded.items }
    requires channels { length choice.now.choices.items ≡ format.channels }
    requires choices { AreChoices format choice.now.mode block choice.now.coded.items
        choice.now.choices.items }
    ensures { IfOk result (λ v. bits_in v.items
        ≡ mode_frame_bits format choice.now.mode block number choice.now.coded.items) }
{
    let mut w = BitWriter::new(alloc);
    write_header(&mut w, &header_of(format, choice.mode, block, number))?;
    write_channels(alloc, &mut w, format, block, choice)?;
    finished(w)
}

/// The header of a block's frame.
fn header_of(format: BlockFormat, mode: ChannelMode, block: u32, number: u32) -> FrameHeader
    requires { 1 ≤ format.channels }
    ensures { result ≡ header_of format mode block number }
{
    FrameHeader {
        block,
        rate: format.rate,
        assignment: assignment_of(format.channels, mode),
        depth: format.depth,
        number: number as u64,
    }
}

/// The assignment of a mode (RFC 9639, section 9.1.3).
fn assignment_of(channels: u8, mode: ChannelMode) -> u8
    requires { 1 ≤ channels }
    ensures { result ≡ assignment_of channels mode }
{
    match mode {
        ChannelMode::Independent => channels - 1,
        ChannelMode::LeftSide => 8,
        ChannelMode::SideRight => 9,
        ChannelMode::MidSide => 10,
    }
}

/// Appends the subframes of all coded channels.
fn write_channels(
    alloc: Global,
    w: &mut BitWriter,
    format: BlockFormat,
    block: u32,
    choice: &BlockChoice,
) -> Result<(), NoMemory>
    requires format { IsFormat format }
    requires some { 0 < block }
    requires few { block ≤ 65535 }
    requires count { length choice.now.coded.items ≡ format.channels * block }
    requires fit { AreFitting format choice.now.mode block choice.now.coded.items }
    requires channels { length choice.now.choices.items ≡ format.channels }
    requires choices { AreChoices format choice.now.mode block choice.now.coded.items
        choice.now.choices.items }
    ensures { OnOk result (w.new ≡ w.old ++ channels_spelled format choice.now.mode block
        choice.now.coded.items format.channels) }
{
    for c in 0..format.channels as usize {
        write_channel(alloc, w, format, block, choice, c)?;
    }
    Ok(())
}

/// Appends the subframe of one coded channel.
fn write_channel(
    alloc: Global,
    w: &mut BitWriter,
    format: BlockFormat,
    block: u32,
    choice: &BlockChoice,
    c: usize,
) -> Result<(), NoMemory>
    requires format { IsFormat format }
    requires some { 0 < block }
    requires few { block ≤ 65535 }
    requires count { length choice.now.coded.items ≡ format.channels * block }
    requires fit { AreFitting format choice.now.mode block choice.now.coded.items }
    requires channels { length choice.now.choices.items ≡ format.channels }
    requires choices { AreChoices format choice.now.mode block choice.now.coded.items
        choice.now.choices.items }
    requires channel { c < format.channels }
    ensures { OnOk result (w.new ≡ w.old ++ channel_spelled format choice.now.mode block
        choice.now.coded.items c) }
{
    let samples = channel_of(choice.coded.as_slice(), block, c);
    let depth = coded_depth(format, choice.mode, c);
    write_subframe(alloc, w, samples, depth, &choice.choices[c])
}

/// The bits a sample of a coded channel: a difference has one more.
fn coded_depth(format: BlockFormat, mode: ChannelMode, c: usize) -> u32
    requires format { IsFormat format }
    ensures value { result ≡ coded_depth format mode c }
    ensures some { 1 ≤ result }
    ensures few { result ≤ 33 }
{
    let depth = format.depth as u32;
    match (mode, c) {
        (ChannelMode::LeftSide, 1) => depth + 1,
        (ChannelMode::SideRight, 0) => depth + 1,
        (ChannelMode::MidSide, 1) => depth + 1,
        _ => depth,
    }
}

/// The bytes of a frame that lacks its end: zeros up to a byte, and the CRC-16 (RFC 9639, section 9.3).
fn finished(w: BitWriter) -> Result<Vec<u8>, NoMemory>
    ensures { IfOk result (λ v. bits_in v.items ≡ summed (padded w)) }
{
    let mut w = w;
    w.pad()?;
    let sum = w.crc16();
    w.put(16, sum as u64)?;
    Ok(w.into_bytes())
}
