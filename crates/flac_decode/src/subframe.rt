// Subframes.
ghost use Rattle.std.specs.Prelude.{◌≡◌, ◌+◌, ◌-◌, ◌*◌, ◌^◌, ◌<◌, ◌≤◌, ◌*ℤ◌, length, take, replicate, map, pos, IfOk, OnOk, unsigned_abs};
ghost use Rattle.flac_decode.specs.Bounds.{AreSmall};
ghost use Rattle.flac_decode.specs.Reading.{Gives, Fills, TellsShort};
ghost use Rattle.flac_decode.specs.Shortness.{is_missing, short_body, short_subframe};
ghost use Rattle.flac_definitions.specs.Subframe.{signed_at, constant_at, body_at, wasted_bits_at, with_wasted_bits, subframe_at};

use crate::fault::ReadFault;
use crate::fields::{read_bits, read_samples, read_signed};
use crate::predictor::{read_fixed, read_linear};
use flac_bits::BitReader;

/// A subframe of one sample.
#[tactic(auto, unfolding(flac_definitions::specs::Subframe::constant_at))]
fn read_constant(r: &mut BitReader<'_>, depth: u32, samples: &mut [i64]) -> Result<(), ReadFault>
    requires some { 0 < depth }
    requires depth { depth ≤ 33 }
    ensures narrow { OnOk result (AreSmall (depth - 1) samples.new) }
    ensures read { Fills (constant_at depth (length samples.old) r.old) result r.new samples.new }
    ensures short { TellsShort result (is_missing (signed_at depth r.old)) }
    ensures bytes { r.new.bytes ≡ r.old.bytes }
{
    match read_signed(r, depth) {
        Ok(x) => {
            samples.fill(x);
            Ok(())
        }
        Err(e) => Err(e),
    }
}

fn read_body(
    r: &mut BitReader<'_>,
    kind: u32,
    depth: u32,
    residual: &mut Vec<i32>,
    samples: &mut [i64],
) -> Result<(), ReadFault>
    requires kind { kind < 64 }
    requires depth { depth ≤ 33 }
    requires some { 0 < depth }
    requires block { length samples.old < 2 ^ 32 }
    ensures narrow { OnOk result (AreSmall (depth - 1) samples.new) }
    ensures read { Fills (body_at kind depth (length samples.old) r.old) result r.new samples.new }
    ensures short { TellsShort result (short_body kind depth (length samples.old) r.old) }
    ensures bytes { r.new.bytes ≡ r.old.bytes }
{
    if kind == 0 {
        read_constant(r, depth, samples)
    } else if kind == 1 {
        read_samples(r, depth, samples)
    } else if kind < 8 {
        Err(ReadFault::Refused)
    } else if kind < 13 {
        read_fixed(r, kind - 8, depth, residual, samples)
    } else if kind < 32 {
        Err(ReadFault::Refused)
    } else {
        read_linear(r, kind - 31, depth, residual, samples)
    }
}

/// How many low bits of each sample are 0 and not kept.
fn read_wasted_bits(r: &mut BitReader<'_>, flag: u64) -> Result<u64, ReadFault>
    ensures read { Gives (wasted_bits_at flag r.old) result r.new }
    ensures short { TellsShort result (is_missing (wasted_bits_at flag r.old)) }
    ensures bytes { r.new.bytes ≡ r.old.bytes }
{
    if flag == 0 {
        return Ok(0);
    }
    match r.unary() {
        Ok(k) => Ok(k + 1),
        Err(_) => Err(ReadFault::Short),
    }
}

/// Multiplies samples by a power of two.
fn add_wasted_bits(samples: &mut [i64], wasted: u32, depth: u32)
    requires some { 0 < depth }
    requires depth { depth + wasted ≤ 33 }
    requires narrow { AreSmall (depth - 1) samples.old }
    ensures samples { samples.new ≡ with_wasted_bits wasted samples.old }
    ensures narrow { AreSmall (depth + wasted - 1) samples.new }
{
    for s in samples.iter_mut() {
        *s = sample_with_wasted_bits(*s, wasted, depth);
    }
}

#[inline(always)]
fn sample_with_wasted_bits(sample: i64, wasted: u32, depth: u32) -> i64
    requires some { 0 < depth }
    requires depth { depth + wasted ≤ 33 }
    requires narrow { unsigned_abs sample ≤ 2 ^ (depth - 1) }
    ensures sample { result ≡ sample *ℤ pos (2 ^ wasted) }
    ensures narrow { unsigned_abs result ≤ 2 ^ (depth + wasted - 1) }
{
    sample * (1 << wasted)
}

/// Reads a subframe of as many samples as there are places.
#[tactic(auto, unfolding(flac_definitions::specs::Subframe::subframe_at))]
pub fn read_subframe(
    r: &mut BitReader<'_>,
    depth: u32,
    residual: &mut Vec<i32>,
    samples: &mut [i64],
) -> Result<(), ReadFault>
    requires depth { depth ≤ 33 }
    requires block { length samples.old < 2 ^ 32 }
    ensures narrow { OnOk result (AreSmall (depth - 1) samples.new) }
    ensures read { Fills (subframe_at depth (length samples.old) r.old) result r.new samples.new }
    ensures short { TellsShort result (short_subframe depth (length samples.old) r.old) }
    ensures bytes { r.new.bytes ≡ r.old.bytes }
{
    let head = match read_bits(r, 8) {
        Ok(x) => x,
        Err(e) => return Err(e),
    };
    if head >= 128 {
        return Err(ReadFault::Refused);
    }
    let wasted = match read_wasted_bits(r, head % 2) {
        Ok(k) => k,
        Err(e) => return Err(e),
    };
    if wasted >= depth as u64 {
        return Err(ReadFault::Refused);
    }
    let wasted = wasted as u32;
    if let Err(e) = read_body(r, (head / 2) as u32, depth - wasted, residual, samples) {
        return Err(e);
    }
    add_wasted_bits(samples, wasted, depth - wasted);
    Ok(())
}
