// Blocks, and the rest of samples between them.
ghost use Rattle.std.specs.Prelude.{◌≡◌, ◌<◌, ◌≤◌, ◌+◌, ◌-◌, ◌*◌, ◌/◌, ◌%◌, ◌^◌, ◌++◌, ◌∷◌, [], true, length, map, drop, IfOk, OnOk, OnErr, pos, ◌+ℤ◌};
ghost use Rattle.std.specs.List.{range_with_len};
ghost use Rattle.codec_definitions.specs.Pcm.{is_whole};
ghost use Rattle.flac_definitions.specs.SubframeWriting.{HaveDepth};
ghost use Rattle.codec_definitions.specs.FlacCode.{block_frames, block_samples};
ghost use Rattle.codec_definitions.specs.FlacEncoder.{block_at, block_unit, values_in, unit_of_rest, nothing_kept};
ghost use Rattle.std.specs.Int.{w64, saturate_signed};
ghost use Rattle.coder_api.specs.Meaning.{Answers};
ghost use Rattle.codec_definitions.specs.declared.command.Command.TheVariants as command;
ghost use Rattle.flac_encode.specs.Steps.{IsRanged, step_unit, step_state, step_answer, left_after, place_after};
ghost use Rattle.flac_encode.specs.Value.{state_of, IsReady};

use crate::block::code_block;
use crate::values::push_values;
use codec_definitions::Unit;
use coder_api::CoderFault;
use sample_conversion::is_whole;
use std::alloc::Global;
use wc_base::{NoMemory, SoundShape};
use wc_chunk::Chunk;
use wc_config::AudioEncoderConfig;

/// A configured encoder: the samples that no block has yet, where the first of them stands, and the next number.
#[derive(Drop)]
pub struct Encoder {
    pub config: AudioEncoderConfig,
    pub rest: Vec<i32>,
    pub origin: i64,
    pub offset: u32,
    pub number: u32,
}

/// What was kept before an input: its frames, where the first of them stands, the next number, and the input's
/// timestamp.
#[derive(Clone, Copy)]
struct Begin {
    kept: usize,
    origin: i64,
    offset: u32,
    number: u32,
    timestamp: i64,
}

/// Takes some samples, and appends the units of the blocks that are whole with them.
pub fn encode(
    alloc: Global,
    e: &mut Encoder,
    shape: &SoundShape,
    bytes: &[u8],
    out: &mut Vec<Unit>,
) -> Result<(), CoderFault>
    requires { IsReady e.old }
    ensures answer { Answers (step_answer e.old.config (state_of e.old)
        (command.Sound (record { shape = shape.now; bytes = bytes.now }))) result out.old.items
        out.new.items }
    ensures state { OnOk result (state_of e.new ≡ step_state e.old.config (state_of e.old)
        (record { shape = shape.now; bytes = bytes.now })) }
    ensures config { e.new.config ≡ e.old.config }
    ensures ready { OnOk result (IsReady e.new) }
{
    if shape.rate != e.config.rate
        || shape.channels != e.config.channels
        || !is_whole(shape, bytes)
    {
        return Err(CoderFault::Refused);
    }
    let begin = Begin {
        kept: e.rest.len() / e.config.channels as usize,
        origin: e.origin,
        offset: e.offset,
        number: e.number,
        timestamp: shape.timestamp,
    };
    if push_values(alloc, &e.config, shape, bytes, &mut e.rest).is_err() {
        return Err(CoderFault::NoMemory);
    }
    let mut units = Vec::new(alloc);
    if push_blocks(
        alloc,
        &e.config,
        e.rest.as_slice(),
        &begin,
        shape.frames,
        &mut units,
    )
    .is_err()
    {
        return Err(CoderFault::NoMemory);
    }
    if out.append(&mut units).is_err() {
        return Err(CoderFault::NoMemory);
    }
    leave(e, &begin, shape.frames);
    Ok(())
}

/// Appends the unit of the rest, if there is one, and begins anew.
pub fn finish(alloc: Global, e: &mut Encoder, out: &mut Vec<Unit>) -> Result<(), NoMemory>
    requires { IsReady e.old }
    ensures answer { OnOk result (out.new.items ≡ out.old.items ++ unit_of_rest e.old.rest.items
        (block_unit e.old.config e.old.number e.old.rest.items (e.old.origin, e.old.offset))) }
    ensures kept { OnErr result (out.new.items ≡ out.old.items) }
    ensures state { OnOk result (state_of e.new ≡ nothing_kept) }
    ensures config { e.new.config ≡ e.old.config }
    ensures ready { OnOk result (IsReady e.new) }
{
    push_rest(alloc, e, out)?;
    e.rest.clear();
    e.origin = 0;
    e.offset = 0;
    e.number = 0;
    Ok(())
}

/// Appends the unit of the rest, if there is one.
fn push_rest(alloc: Global, e: &Encoder, out: &mut Vec<Unit>) -> Result<(), NoMemory>
    requires { IsReady e.now }
    ensures answer { OnOk result (out.new.items ≡ out.old.items ++ unit_of_rest e.now.rest.items
        (block_unit e.now.config e.now.number e.now.rest.items (e.now.origin, e.now.offset))) }
    ensures kept { OnErr result (out.new.items ≡ out.old.items) }
{
    if e.rest.is_empty() {
        return Ok(());
    }
    let unit = block_unit(
        alloc,
        &e.config,
        e.number,
        e.rest.as_slice(),
        e.origin,
        e.offset,
    )?;
    push_unit(unit, out)
}

/// Frames a block.
pub fn block_frames(config: &AudioEncoderConfig) -> u32
    ensures { result ≡ block_frames config.now }
{
    if config.block_size == 0 {
        4096
    } else {
        config.block_size
    }
}

/// Samples a block.
fn block_samples(config: &AudioEncoderConfig) -> usize
    requires { IsRanged config.now }
    ensures value { result ≡ block_samples config.now }
    ensures some { 0 < result }
    ensures most { result ≤ 65535 * 8 }
{
    block_frames(config) as usize * config.channels as usize
}

/// Appends the units of the whole blocks of kept samples and those of an input with so many frames.
fn push_blocks(
    alloc: Global,
    config: &AudioEncoderConfig,
    values: &[i32],
    begin: &Begin,
    frames: u32,
    out: &mut Vec<Unit>,
) -> Result<(), NoMemory>
    requires ranged { IsRanged config.now }
    requires count { length values.now ≡ (begin.now.kept + frames) * config.now.channels }
    requires fit { HaveDepth config.now.depth values.now }
    ensures { OnOk result (out.new.items ≡ out.old.items ++ map (step_unit config.now
        begin.now.number begin.now.kept (begin.now.origin, begin.now.offset) begin.now.timestamp
        values.now) (range_with_len 0 (length values.now / block_samples config.now))) }
{
    let size = block_samples(config);
    let blocks = values.len() / size;
    for j in 0..blocks {
        let unit = whole_unit(alloc, config, values, begin, frames, j)?;
        push_unit(unit, out)?;
    }
    Ok(())
}

/// Appends a unit.
fn push_unit(unit: Unit, out: &mut Vec<Unit>) -> Result<(), NoMemory>
    ensures ok { OnOk result (out.new.items ≡ out.old.items ++ unit ∷ []) }
    ensures err { OnErr result (out.new.items ≡ out.old.items) }
{
    match out.push(unit) {
        Ok(()) => Ok(()),
        Err(_) => Err(NoMemory),
    }
}

/// The unit of one of the whole blocks.
fn whole_unit(
    alloc: Global,
    config: &AudioEncoderConfig,
    values: &[i32],
    begin: &Begin,
    frames: u32,
    j: usize,
) -> Result<Unit, NoMemory>
    requires ranged { IsRanged config.now }
    requires count { length values.now ≡ (begin.now.kept + frames) * config.now.channels }
    requires within { j < length values.now / block_samples config.now }
    requires fit { HaveDepth config.now.depth values.now }
    ensures { IfOk result (λ u. u ≡ step_unit config.now begin.now.number begin.now.kept
        (begin.now.origin, begin.now.offset) begin.now.timestamp values.now j) }
{
    let size = block_samples(config);
    let place = place(begin, j * block_frames(config) as usize, frames);
    let block = block(values, size, j);
    block_unit(
        alloc,
        config,
        number(begin.number, j),
        block,
        place.0,
        place.1,
    )
}

/// One of the blocks.
fn block(values: &[i32], size: usize, j: usize) -> &[i32]
    requires { size * j + size ≤ length values.now }
    ensures value { result.now ≡ block_at size values.now j }
    ensures count { length result.now ≡ size }
{
    &values[size * j..size * j + size]
}

/// The number of a block so many after another.
fn number(first: u32, more: usize) -> u32
    ensures value { result ≡ (first + more) % 2 ^ 31 }
    ensures small { result < 2 ^ 31 }
{
    let more = (more % (1 << 31)) as u64;
    ((first as u64 + more) % (1 << 31)) as u32
}

/// Where a frame at which a block begins stands.
fn place(begin: &Begin, frame: usize, frames: u32) -> (i64, u32)
    requires { frame < begin.now.kept + frames }
    ensures { result ≡ place_after begin.now.kept (begin.now.origin, begin.now.offset)
        begin.now.timestamp frame }
{
    if frame < begin.kept {
        (begin.origin, begin.offset)
    } else {
        (begin.timestamp, (frame - begin.kept) as u32)
    }
}

/// The unit of a block.
fn block_unit(
    alloc: Global,
    config: &AudioEncoderConfig,
    number: u32,
    values: &[i32],
    origin: i64,
    offset: u32,
) -> Result<Unit, NoMemory>
    requires ranged { IsRanged config.now }
    requires number { number < 2 ^ 31 }
    requires some { 0 < length values.now }
    requires few { length values.now ≤ 65535 * config.now.channels }
    requires whole { length values.now % config.now.channels ≡ 0 }
    requires fit { HaveDepth config.now.depth values.now }
    ensures { IfOk result (λ u. u ≡ block_unit config.now number values.now (origin, offset)) }
{
    let bytes = code_block(alloc, config, number, values)?;
    let frames = values.len() / config.channels as usize;
    let chunk = Chunk {
        key: true,
        timestamp: stamp(origin, offset, config.rate),
        duration: Some(frames as u64 * 1_000_000 / config.rate as u64),
        bytes,
    };
    Ok(Unit::Coded {
        chunk,
        config: None,
    })
}

/// The timestamp of a frame.
fn stamp(origin: i64, offset: u32, rate: u32) -> i64
    requires { 0 < rate }
    ensures { result ≡ saturate_signed w64 (origin +ℤ pos (offset * 1000000 / rate)) }
{
    let more = offset as u64 * 1_000_000 / rate as u64;
    origin.saturating_add(more as i64)
}

/// Drops the whole blocks, and says where what is left stands.
fn leave(e: &mut Encoder, begin: &Begin, frames: u32)
    requires ranged { IsRanged e.old.config }
    requires count { length e.old.rest.items ≡ (begin.now.kept + frames) * e.old.config.channels }
    requires fit { HaveDepth e.old.config.depth e.old.rest.items }
    ensures state { state_of e.new ≡ left_after e.old.config begin.now.number begin.now.kept
        (begin.now.origin, begin.now.offset) begin.now.timestamp e.old.rest.items
        (length e.old.rest.items / block_samples e.old.config) }
    ensures config { e.new.config ≡ e.old.config }
    ensures ready { IsReady e.new }
{
    let size = block_samples(&e.config);
    let blocks = e.rest.len() / size;
    let at = left_place(&e.config, begin, frames, blocks, e.rest.len());
    drop_front(&mut e.rest, size * blocks);
    e.origin = at.0;
    e.offset = at.1;
    e.number = number(begin.number, blocks);
}

/// Where what whole blocks leave stands.
fn left_place(
    config: &AudioEncoderConfig,
    begin: &Begin,
    frames: u32,
    blocks: usize,
    count: usize,
) -> (i64, u32)
    requires ranged { IsRanged config.now }
    requires count { count ≡ (begin.now.kept + frames) * config.now.channels }
    requires blocks { blocks ≡ count / block_samples config.now }
    ensures some { block_samples config.now * blocks < count → result ≡ place_after begin.now.kept
        (begin.now.origin, begin.now.offset) begin.now.timestamp
        (blocks * block_frames config.now) }
    ensures none { count ≤ block_samples config.now * blocks → result ≡ (pos 0, 0) }
{
    if block_samples(config) * blocks < count {
        place(begin, blocks * block_frames(config) as usize, frames)
    } else {
        (0, 0)
    }
}

/// Drops the first values.
fn drop_front(values: &mut Vec<i32>, n: usize)
    requires { n ≤ length values.old.items }
    ensures { values.new.items ≡ drop n values.old.items }
{
    if n == 0 {
        return;
    }
    let count = values.len();
    values.as_mut_slice().copy_within(n..count, 0);
    values.truncate(count - n);
}
