// The mode of least length.
ghost use Rattle.std.specs.Prelude.{◌≡◌, ◌<◌, ◌≤◌, ◌+◌, ◌*◌, ◌^◌, ◌++◌, [], ◌∷◌, true, false, length, take, drop, IfOk};
ghost use Rattle.flac_definitions.specs.Candidates.{shorter, first_shortest};
ghost use Rattle.flac_subframes.specs.Search.{AreWithin};
ghost use Rattle.flac_definitions.specs.Modes.{channel_of, pairwise, side_of, mid_of, has_pairs, pair_modes, IsFormat, IsBlock, AreChoices, IsBestBlock};
ghost use Rattle.flac_blocks.specs.Search.{first_of, second_of, pair_bits, IsBest};
ghost use Rattle.flac_definitions.specs.declared.mode.ChannelMode.TheVariants.{Independent};

use crate::pair::{mids, sides};
use flac_definitions::{BlockChoice, BlockFormat, ChannelMode};
use flac_subframes::{Choice, best_choice};
use std::alloc::Global;
use wc_base::NoMemory;

/// The best way to code a block of 1 to 65535 frames, whose channels stand one after another: the first mode of least
/// length (independent; and for two channels of fewer than 32 bits at levels from 2 on, left/side, side/right and
/// mid/side), with the first candidate of least length for each coded channel.
pub fn best_block(
    alloc: Global,
    format: BlockFormat,
    block: u32,
    samples: &[i32],
) -> Result<BlockChoice, NoMemory>
    requires format { IsFormat format }
    requires block { IsBlock format block samples.now }
    ensures { IfOk result (IsBestBlock format block samples.now) }
{
    if has_pairs(format) {
        best_pair(alloc, format, block, samples)
    } else {
        independent_block(alloc, format, block, samples)
    }
}

/// Whether a pair of channels may be coded otherwise than each by itself.
fn has_pairs(format: BlockFormat) -> bool
    ensures { result ≡ has_pairs format }
{
    format.channels == 2 && format.depth < 32 && format.level >= 2
}

/// A block whose channels are coded each by itself.
fn independent_block(
    alloc: Global,
    format: BlockFormat,
    block: u32,
    samples: &[i32],
) -> Result<BlockChoice, NoMemory>
    requires format { IsFormat format }
    requires block { IsBlock format block samples.now }
    requires alone { has_pairs format ≡ false }
    ensures { IfOk result (IsBestBlock format block samples.now) }
{
    let coded = Vec::from_slice(alloc, samples)?;
    let choices = independent_choices(alloc, format, block, samples)?;
    Ok(BlockChoice {
        mode: ChannelMode::Independent,
        coded,
        choices,
    })
}

fn independent_choices(
    alloc: Global,
    format: BlockFormat,
    block: u32,
    samples: &[i32],
) -> Result<Vec<Choice>, NoMemory>
    requires format { IsFormat format }
    requires block { IsBlock format block samples.now }
    ensures count { IfOk result (λ v. length v.items ≡ format.channels) }
    ensures best { IfOk result
        (λ v. AreChoices format Independent block samples.now v.items) }
{
    let mut choices = Vec::new(alloc);
    for c in 0..format.channels as usize {
        let choice = plain_choice(alloc, format, block, samples, c)?;
        if choices.push(choice).is_err() {
            return Err(NoMemory);
        }
    }
    Ok(choices)
}

/// The best choice for one of the channels, by itself.
fn plain_choice(
    alloc: Global,
    format: BlockFormat,
    block: u32,
    samples: &[i32],
    c: usize,
) -> Result<Choice, NoMemory>
    requires format { IsFormat format }
    requires block { IsBlock format block samples.now }
    requires channel { c < format.channels }
    ensures { IfOk result
        (IsBest format.depth format.level (channel_of block samples.now c)) }
{
    let channel = channel_of(samples, block, c);
    best_choice(alloc, channel, format.depth as u32, format.level as u32)
}

/// One of the channels of a block.
pub fn channel_of(samples: &[i32], block: u32, c: usize) -> &[i32]
    requires few { c < 8 }
    requires within { (c + 1) * block ≤ length samples.now }
    ensures { result.now ≡ channel_of block samples.now c }
{
    let size = block as usize;
    &samples[c * size..(c + 1) * size]
}

/// The choices for the channels of a pair, their difference and their middle.
#[derive(Drop)]
struct PairChoices {
    left: Choice,
    right: Choice,
    side: Choice,
    mid: Choice,
}

/// The best block of two channels.
fn best_pair(
    alloc: Global,
    format: BlockFormat,
    block: u32,
    samples: &[i32],
) -> Result<BlockChoice, NoMemory>
    requires format { IsFormat format }
    requires block { IsBlock format block samples.now }
    requires pairs { has_pairs format ≡ true }
    ensures { IfOk result (IsBestBlock format block samples.now) }
{
    let (left, right) = samples.split_at(block as usize);
    let sides = sides(alloc, left, right)?;
    let mids = mids(alloc, left, right)?;
    let side = sides.as_slice();
    let mid = mids.as_slice();
    let choices = pair_choices(alloc, format, left, right, side, mid)?;
    chosen(alloc, left, right, side, mid, choices)
}

fn pair_choices(
    alloc: Global,
    format: BlockFormat,
    left: &[i32],
    right: &[i32],
    side: &[i32],
    mid: &[i32],
) -> Result<PairChoices, NoMemory>
    requires format { IsFormat format }
    requires some { 0 < length left.now }
    requires count { length left.now ≤ 65535 }
    requires right { length right.now ≡ length left.now }
    requires side { length side.now ≡ length left.now }
    requires mid { length mid.now ≡ length left.now }
    ensures left { IfOk result (λ c. IsBest format.depth format.level left.now c.left) }
    ensures right { IfOk result (λ c. IsBest format.depth format.level right.now c.right) }
    ensures side { IfOk result (λ c. IsBest (format.depth + 1) format.level side.now c.side) }
    ensures mid { IfOk result (λ c. IsBest format.depth format.level mid.now c.mid) }
{
    let depth = format.depth as u32;
    let level = format.level as u32;
    Ok(PairChoices {
        left: best_choice(alloc, left, depth, level)?,
        right: best_choice(alloc, right, depth, level)?,
        side: best_choice(alloc, side, depth + 1, level)?,
        mid: best_choice(alloc, mid, depth, level)?,
    })
}

/// The channels and the choices of the first mode of least length.
fn chosen(
    alloc: Global,
    left: &[i32],
    right: &[i32],
    side: &[i32],
    mid: &[i32],
    choices: PairChoices,
) -> Result<BlockChoice, NoMemory>
    requires left { choices.left.bits < 2 ^ 32 }
    requires right { choices.right.bits < 2 ^ 32 }
    requires side { choices.side.bits < 2 ^ 32 }
    requires mid { choices.mid.bits < 2 ^ 32 }
    ensures mode { IfOk result (λ b. b.mode ≡ first_shortest (pair_bits choices.left.bits
        choices.right.bits choices.side.bits choices.mid.bits) Independent pair_modes) }
    ensures coded { IfOk result (λ b. b.coded.items
        ≡ first_of left.now right.now side.now mid.now b.mode
        ++ second_of left.now right.now side.now mid.now b.mode) }
    ensures choices { IfOk result (λ b. b.choices.items
        ≡ first_of choices.left choices.right choices.side choices.mid b.mode
        ∷ second_of choices.left choices.right choices.side choices.mid b.mode ∷ []) }
{
    let mode = pair_mode(&choices);
    match mode {
        ChannelMode::Independent => {
            block_of(alloc, mode, left, right, choices.left, choices.right)
        }
        ChannelMode::LeftSide => block_of(alloc, mode, left, side, choices.left, choices.side),
        ChannelMode::SideRight => {
            block_of(alloc, mode, side, right, choices.side, choices.right)
        }
        ChannelMode::MidSide => block_of(alloc, mode, mid, side, choices.mid, choices.side),
    }
}

/// A block of two coded channels.
fn block_of(
    alloc: Global,
    mode: ChannelMode,
    first: &[i32],
    second: &[i32],
    one: Choice,
    other: Choice,
) -> Result<BlockChoice, NoMemory>
    ensures mode { IfOk result (λ b. b.mode ≡ mode) }
    ensures coded { IfOk result (λ b. b.coded.items ≡ first.now ++ second.now) }
    ensures choices { IfOk result (λ b. b.choices.items ≡ one ∷ other ∷ []) }
{
    let mut coded = Vec::from_slice(alloc, first)?;
    coded.extend_from_slice(second)?;
    let mut choices = Vec::with_capacity(alloc, 2)?;
    choices.push_reserved(one);
    choices.push_reserved(other);
    Ok(BlockChoice {
        mode,
        coded,
        choices,
    })
}

/// The first mode of least length.
fn pair_mode(choices: &PairChoices) -> ChannelMode
    requires left { choices.now.left.bits < 2 ^ 32 }
    requires right { choices.now.right.bits < 2 ^ 32 }
    requires side { choices.now.side.bits < 2 ^ 32 }
    requires mid { choices.now.mid.bits < 2 ^ 32 }
    ensures { result ≡ first_shortest (pair_bits choices.now.left.bits
        choices.now.right.bits choices.now.side.bits choices.now.mid.bits)
        Independent pair_modes }
{
    let first = shorter_mode(choices, ChannelMode::Independent, ChannelMode::LeftSide);
    let second = shorter_mode(choices, first, ChannelMode::SideRight);
    shorter_mode(choices, second, ChannelMode::MidSide)
}

/// The first of two modes, where the second is not shorter.
fn shorter_mode(choices: &PairChoices, first: ChannelMode, second: ChannelMode) -> ChannelMode
    requires left { choices.now.left.bits < 2 ^ 32 }
    requires right { choices.now.right.bits < 2 ^ 32 }
    requires side { choices.now.side.bits < 2 ^ 32 }
    requires mid { choices.now.mid.bits < 2 ^ 32 }
    ensures { result ≡ shorter (pair_bits choices.now.left.bits choices.now.right.bits
        choices.now.side.bits choices.now.mid.bits) first second }
{
    if pair_bits(choices, second) < pair_bits(choices, first) {
        second
    } else {
        first
    }
}

/// The bits of both subframes of a mode.
fn pair_bits(choices: &PairChoices, mode: ChannelMode) -> u64
    requires left { choices.now.left.bits < 2 ^ 32 }
    requires right { choices.now.right.bits < 2 ^ 32 }
    requires side { choices.now.side.bits < 2 ^ 32 }
    requires mid { choices.now.mid.bits < 2 ^ 32 }
    ensures { result ≡ pair_bits choices.now.left.bits choices.now.right.bits
        choices.now.side.bits choices.now.mid.bits mode }
{
    match mode {
        ChannelMode::Independent => choices.left.bits + choices.right.bits,
        ChannelMode::LeftSide => choices.left.bits + choices.side.bits,
        ChannelMode::SideRight => choices.side.bits + choices.right.bits,
        ChannelMode::MidSide => choices.mid.bits + choices.side.bits,
    }
}
