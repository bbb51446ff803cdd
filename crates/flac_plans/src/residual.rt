// Residuals, written.
ghost use Rattle.std.specs.Prelude.{◌≡◌, ◌<◌, ◌≤◌, ◌+◌, ◌-◌, ◌*◌, ◌/◌, ◌%◌, ◌^◌, ◌++◌, ℕ, true, length, map, take, drop, slice_index, OnOk, OnErr, IfOk};
ghost use Rattle.flac_definitions.specs.Bits.{bits_of};
ghost use Rattle.flac_definitions.specs.ResidualSpelling.{folded_value};
ghost use Rattle.flac_write.specs.Writer.{IsBegun};
ghost use Rattle.flac_plans.specs.Held.{IsHeld, IsHeldWord};
ghost use Rattle.flac_definitions.specs.Plans.{IsUsable, part_of};
ghost use Rattle.flac_definitions.specs.ResidualWriting.{rice_bits, part_spelled, residual_bits};

use crate::sums::{folded_value, part_of};
use flac_definitions::RicePlan;
use flac_write::BitWriter;
use wc_base::NoMemory;

/// Appends the coded residual of a block of so many samples behind a predictor of an order, with a plan's partition
/// order and parameters: coding method 0, and no escapes (RFC 9639, section 9.2.7). After a want of memory the bits are
/// the earlier ones with a front of the new ones.
pub fn write_residual(
    w: &mut BitWriter,
    residual: &[i32],
    block: u32,
    order: u32,
    plan: &RicePlan,
) -> Result<(), NoMemory>
    requires block { block ≤ 65535 }
    requires order { order < block }
    requires count { length residual.now + order ≡ block }
    requires usable { IsUsable block order plan.now }
    ensures ok { OnOk result (w.new ≡ w.old ++ residual_bits block order
        (map folded_value residual.now) plan.now.partition plan.now.parameters.items) }
    ensures err { OnErr result (IsBegun w.old (residual_bits block order
        (map folded_value residual.now) plan.now.partition plan.now.parameters.items) w.new) }
{
    write_head(w, plan.partition)?;
    let size = (block >> plan.partition) as usize;
    let parts = plan.parameters.len();
    for j in 0..parts {
        write_part(
            w,
            part_of(residual, size, order as usize, j),
            plan.parameters[j] as u32,
        )?;
    }
    Ok(())
}

/// Appends the coding method and the partition order.
fn write_head(w: &mut BitWriter, partition: u32) -> Result<(), NoMemory>
    requires { partition ≤ 15 }
    ensures ok { OnOk result (w.new ≡ w.old ++ (bits_of 2 0 ++ bits_of 4 partition)) }
    ensures err { OnErr result (IsBegun w.old (bits_of 2 0 ++ bits_of 4 partition) w.new) }
{
    w.put(2, 0)?;
    w.put(4, partition as u64)
}

/// Bits that are not written yet, fewer than a word: a number of so many bits.
#[derive(Clone, Copy)]
struct Held {
    word: u64,
    count: u32,
}

/// Appends a part.
fn write_part(w: &mut BitWriter, values: &[i32], k: u32) -> Result<(), NoMemory>
    requires { k ≤ 14 }
    ensures ok { OnOk result (w.new ≡ w.old ++ part_spelled k (map folded_value values.now)) }
    ensures err { OnErr result
        (IsBegun w.old (part_spelled k (map folded_value values.now)) w.new) }
{
    let mut held = Held {
        word: k as u64,
        count: 4,
    };
    for value in values {
        held = with_value(w, held, k, folded_value(*value))?;
    }
    w.put(held.count, held.word)
}

/// Holds the code of a folded value too, and writes what was held before it where both are not held.
#[inline]
fn with_value(w: &mut BitWriter, held: Held, k: u32, z: u32) -> Result<Held, NoMemory>
    requires k { k ≤ 14 }
    requires held { IsHeldWord held }
    ensures ok { IfOk result
        (IsHeld w.old (bits_of held.count held.word ++ rice_bits k z) w.new) }
    ensures word { IfOk result IsHeldWord }
    ensures err { OnErr result
        (IsBegun w.old (bits_of held.count held.word ++ rice_bits k z) w.new) }
{
    let zeros = z >> k;
    let count = zeros as u64 + (k + 1) as u64;
    let room = (63 - held.count) as u64;
    if count <= room {
        let tail = tail_of(k, z);
        let both = joined(held, count as u32, tail);
        return Ok(both);
    }
    w.put(held.count, held.word)?;
    put_value(w, k, z)
}

/// The same with a number of so many bits more.
#[inline]
fn joined(held: Held, count: u32, value: u64) -> Held
    requires held { IsHeldWord held }
    requires room { held.count + count ≤ 63 }
    requires value { value < 2 ^ count }
    ensures bits { bits_of result.count result.word
        ≡ bits_of held.count held.word ++ bits_of count value }
    ensures word { IsHeldWord result }
{
    Held {
        word: (held.word << count) | value,
        count: held.count + count,
    }
}

/// Holds the code of a folded value, where nothing is held.
#[inline(never)]
fn put_value(w: &mut BitWriter, k: u32, z: u32) -> Result<Held, NoMemory>
    requires { k ≤ 14 }
    ensures ok { IfOk result (IsHeld w.old (rice_bits k z) w.new) }
    ensures word { IfOk result IsHeldWord }
    ensures err { OnErr result (IsBegun w.old (rice_bits k z) w.new) }
{
    let zeros = z >> k;
    let tail = tail_of(k, z);
    if zeros <= 48 {
        return Ok(Held {
            word: tail,
            count: zeros + k + 1,
        });
    }
    put_zeros(w, zeros)?;
    Ok(Held {
        word: tail,
        count: k + 1,
    })
}

/// A 1 and the low bits.
#[inline]
fn tail_of(k: u32, z: u32) -> u64
    requires { k ≤ 14 }
    ensures value { result ≡ 2 ^ k + z % 2 ^ k }
    ensures bound { result < 2 ^ (k + 1) }
{
    let low = z & ((1 << k) - 1);
    (1 << k) + low as u64
}

/// Appends zeros.
#[inline(never)]
fn put_zeros(w: &mut BitWriter, n: u32) -> Result<(), NoMemory>
    ensures ok { OnOk result (w.new ≡ w.old ++ bits_of n 0) }
    ensures err { OnErr result (IsBegun w.old (bits_of n 0) w.new) }
{
    for _i in 0..n / 32 {
        w.put(32, 0)?;
    }
    w.put(n % 32, 0)
}
