// Sums of quotients, part by part.
ghost use Rattle.std.specs.Prelude.{ℕ, ◌≡◌, ◌<◌, ◌≤◌, ◌+◌, ◌-◌, ◌*◌, ◌/◌, ◌^◌, ◌++◌, ◌∷◌, [], length, map, IfOk, OnOk, sum_by};
ghost use Rattle.std.specs.List.{range_with_len};
ghost use Rattle.flac_definitions.specs.ResidualSpelling.{folded_value};
ghost use Rattle.flac_definitions.specs.Plans.{cost, best_parameter, part_of};
ghost use Rattle.flac_plans.specs.Search.{quotients, total, row, table, IsFirstLeast, IsWindow, bound_at, distance_within, least, least_value, part_bound};

use std::alloc::Global;
use wc_base::NoMemory;

/// A signed number as an unsigned one.
#[inline]
pub fn folded_value(value: i32) -> u32
    ensures { result ≡ folded_value value }
{
    if value < 0 {
        2 * (!value) as u32 + 1
    } else {
        2 * value as u32
    }
}

/// All of them.
pub fn all_folded(alloc: Global, residual: &[i32]) -> Result<Vec<u32>, NoMemory>
    ensures { IfOk result (λ v. v.items ≡ map folded_value residual.now) }
{
    let mut zs = Vec::from_elem(alloc, 0u32, residual.len())?;
    fold_into(residual, zs.as_mut_slice());
    Ok(zs)
}

fn fold_into(residual: &[i32], out: &mut [u32])
    requires { length out.old ≡ length residual.now }
    ensures { out.new ≡ map folded_value residual.now }
{
    for j in 0..out.len() {
        out[j] = folded_value(residual[j]);
    }
}

/// Appends a number.
#[inline]
pub fn push_number(sum: u64, out: &mut Vec<u64>) -> Result<(), NoMemory>
    ensures { OnOk result (out.new.items ≡ out.old.items ++ sum ∷ []) }
{
    match out.push(sum) {
        Ok(()) => Ok(()),
        Err(_) => Err(NoMemory),
    }
}

/// The sum of quotients by 2^k.
pub fn quotients(zs: &[u32], k: u32) -> u64
    requires count { length zs.now ≤ 65535 }
    requires k { k ≤ 14 }
    ensures value { result ≡ quotients k zs.now }
    ensures bound { result ≤ length zs.now * 2 ^ 32 }
{
    let mut sum = 0u64;
    for z in zs {
        sum += (*z >> k) as u64;
    }
    sum
}

/// One of the parts.
pub fn part(zs: &[u32], size: usize, order: usize, j: usize) -> &[u32]
    requires size { size ≤ 65535 }
    requires order { order < size }
    requires within { (j + 1) * size ≤ length zs.now + order }
    ensures value { result.now ≡ part_of size order zs.now j }
    ensures some { 0 < length result.now }
    ensures count { length result.now ≤ size }
{
    let begin = (j * size).saturating_sub(order);
    &zs[begin..(j + 1) * size - order]
}

/// One of the parts of a residual.
pub fn part_of(residual: &[i32], size: usize, order: usize, j: usize) -> &[i32]
    requires size { size ≤ 65535 }
    requires order { order < size }
    requires within { (j + 1) * size ≤ length residual.now + order }
    ensures value { map folded_value result.now
        ≡ part_of size order (map folded_value residual.now) j }
    ensures count { length result.now ≤ size }
{
    let begin = (j * size).saturating_sub(order);
    &residual[begin..(j + 1) * size - order]
}

/// Parameters from which on and up to which the best of each part is.
#[derive(Clone, Copy)]
pub struct Window {
    pub low: u32,
    pub high: u32,
}

/// A window that fits one part more.
pub fn narrowed(window: Window, sum: u64, count: u64) -> Window
    requires low { window.low ≤ 14 }
    requires high { window.high ≤ 14 }
    requires count { count ≤ 65535 }
    ensures low_below { result.low ≤ window.low }
    ensures high_above { window.high ≤ result.high }
    ensures most { result.high ≤ 14 }
    ensures low { 0 < result.low → 3 * count * 2 ^ (result.low - 1) ≤ sum }
    ensures high { result.high < 14 → sum ≤ count * 2 ^ result.high }
    ensures greatest_low { (k : ℕ) → result.low < k → k ≤ window.low
        → sum < 3 * count * 2 ^ (k - 1) }
    ensures least_high { (k : ℕ) → window.high ≤ k → k < result.high → count * 2 ^ k < sum }
{
    Window {
        low: lowered(window.low, sum, count),
        high: raised(window.high, sum, count),
    }
}

fn lowered(from: u32, sum: u64, count: u64) -> u32
    requires from { from ≤ 14 }
    requires count { count ≤ 65535 }
    ensures below { result ≤ from }
    ensures low { 0 < result → 3 * count * 2 ^ (result - 1) ≤ sum }
    ensures greatest { (k : ℕ) → result < k → k ≤ from → sum < 3 * count * 2 ^ (k - 1) }
{
    let mut low = from;
    while low > 0 && sum < 3 * count * (1 << (low - 1)) {
        low -= 1;
    }
    low
}

fn raised(from: u32, sum: u64, count: u64) -> u32
    requires from { from ≤ 14 }
    requires count { count ≤ 65535 }
    ensures above { from ≤ result }
    ensures most { result ≤ 14 }
    ensures high { result < 14 → sum ≤ count * 2 ^ result }
    ensures least { (k : ℕ) → from ≤ k → k < result → count * 2 ^ k < sum }
{
    let mut high = from;
    while high < 14 && count * (1 << high) < sum {
        high += 1;
    }
    high
}

/// The sum of quotients by 2^k, where that of quotients by a lower power fits 32 bits.
fn small_quotients(zs: &[u32], low: u32, k: u32) -> u32
    requires count { length zs.now ≤ 65535 }
    requires k { k ≤ 14 }
    requires low { low ≤ k }
    requires small { quotients low zs.now < 2 ^ 32 }
    ensures { result ≡ quotients k zs.now }
{
    let _low = low;
    let mut sum = 0u32;
    for z in zs {
        sum += *z >> k;
    }
    sum
}

/// Appends the sums of a part.
pub fn push_row(zs: &[u32], low: u32, width: u32, out: &mut Vec<u64>) -> Result<(), NoMemory>
    requires count { length zs.now ≤ 65535 }
    requires width { low + width ≤ 15 }
    ensures { OnOk result (out.new.items ≡ out.old.items ++ row low width zs.now) }
{
    if width == 0 {
        return Ok(());
    }
    let first = quotients(zs, low);
    for c in 0..width {
        let sum = next_sum(zs, low, c, first);
        push_number(sum, out)?;
    }
    Ok(())
}

/// One of the sums, from the first.
#[inline]
fn next_sum(zs: &[u32], low: u32, c: u32, first: u64) -> u64
    requires count { length zs.now ≤ 65535 }
    requires width { low + c ≤ 14 }
    requires first { first ≡ quotients low zs.now }
    ensures { result ≡ quotients (low + c) zs.now }
{
    if c == 0 {
        return first;
    }
    if first < 1 << 32 {
        small_quotients(zs, low, low + c) as u64
    } else {
        quotients(zs, low + c)
    }
}

/// The first parameter with the fewest bits among those of a row, and these bits.
pub fn choose(zs: &[u32], sums: &[u64], low: u32) -> (u32, u64)
    requires count { length zs.now ≤ 65535 }
    requires some { 0 < length sums.now }
    requires width { low + length sums.now ≤ 15 }
    requires row { sums.now ≡ row low (length sums.now) zs.now }
    ensures best { IsFirstLeast (λ k. cost k zs.now) low (low + length sums.now - 1) result.0 }
    ensures bits { result.1 ≡ cost result.0 zs.now }
{
    let mut best = low;
    let mut bits = bits_at(zs, sums, low, 0);
    for c in 1..sums.len() {
        let next = bits_at(zs, sums, low, c);
        if next < bits {
            best = low + c as u32;
            bits = next;
        }
    }
    (best, bits)
}

/// The bits of a part with one of the parameters.
#[inline]
fn bits_at(zs: &[u32], sums: &[u64], low: u32, c: usize) -> u64
    requires count { length zs.now ≤ 65535 }
    requires within { c < length sums.now }
    requires width { low + length sums.now ≤ 15 }
    requires row { sums.now ≡ row low (length sums.now) zs.now }
    ensures value { result ≡ cost (low + c) zs.now }
    ensures bound { result ≤ length zs.now * (2 ^ 32 + 15) }
{
    sums[c] + zs.len() as u64 * (1 + low as u64 + c as u64)
}

/// The best parameter of a part, and the bits with it.
pub fn best_of(zs: &[u32], sums: &[u64], window: Window) -> (u32, u64)
    requires count { length zs.now ≤ 65535 }
    requires window { IsWindow window.low window.high zs.now }
    requires order { window.low ≤ window.high }
    requires most { window.high ≤ 14 }
    requires width { length sums.now ≡ window.high - window.low + 1 }
    requires row { sums.now ≡ row window.low (length sums.now) zs.now }
    ensures best { result.0 ≡ best_parameter zs.now }
    ensures small { result.0 ≤ 14 }
    ensures bits { result.1 ≡ cost (best_parameter zs.now) zs.now }
    ensures bound { result.1 ≤ length zs.now * (2 ^ 32 + 15) }
{
    choose(zs, sums, window.low)
}

/// A window that fits a part too.
pub fn narrowed_by(window: Window, zs: &[u32]) -> Window
    requires low { window.low ≤ 14 }
    requires high { window.high ≤ 14 }
    requires some { 0 < length zs.now }
    requires count { length zs.now ≤ 65535 }
    ensures low_below { result.low ≤ window.low }
    ensures high_above { window.high ≤ result.high }
    ensures most { result.high ≤ 14 }
    ensures fits { IsWindow result.low result.high zs.now }
    ensures greatest_low { (k : ℕ) → result.low < k → k ≤ window.low
        → total zs.now < 3 * length zs.now * 2 ^ (k - 1) }
    ensures least_high { (k : ℕ) → window.high ≤ k → k < result.high
        → length zs.now * 2 ^ k < total zs.now }
{
    narrowed(window, quotients(zs, 0), zs.len() as u64)
}

/// Appends the sums of two parts as one.
pub fn push_joined(
    left: &[u32],
    right: &[u32],
    left_sums: &[u64],
    right_sums: &[u64],
    low: u32,
    out: &mut Vec<u64>,
) -> Result<(), NoMemory>
    requires left_count { length left.now ≤ 65535 }
    requires right_count { length right.now ≤ 65535 }
    requires same { length right_sums.now ≡ length left_sums.now }
    requires left_row { left_sums.now ≡ row low (length left_sums.now) left.now }
    requires right_row { right_sums.now ≡ row low (length left_sums.now) right.now }
    ensures { OnOk result (out.new.items
        ≡ out.old.items ++ row low (length left_sums.now) (left.now ++ right.now)) }
{
    for c in 0..left_sums.len() {
        let sum = sum_at(left, right, left_sums, right_sums, low, c);
        push_number(sum, out)?;
    }
    Ok(())
}

#[inline]
fn sum_at(
    left: &[u32],
    right: &[u32],
    left_sums: &[u64],
    right_sums: &[u64],
    low: u32,
    c: usize,
) -> u64
    requires left_count { length left.now ≤ 65535 }
    requires right_count { length right.now ≤ 65535 }
    requires within { c < length left_sums.now }
    requires same { length right_sums.now ≡ length left_sums.now }
    requires left_row { left_sums.now ≡ row low (length left_sums.now) left.now }
    requires right_row { right_sums.now ≡ row low (length left_sums.now) right.now }
    ensures { result ≡ quotients (low + c) (left.now ++ right.now) }
{
    let _count = left.len() + right.len();
    left_sums[c] + right_sums[c]
}

/// Bits that no parameter from 0 to 14 goes below, for so many values of which twice their sum without signs is at
/// least `twice`, at most 2^48.
pub fn bound_of(count: u64, twice: u64) -> u64
    requires count { count ≤ 65535 }
    requires twice { twice ≤ 2 ^ 48 }
    ensures value { result ≡ least_value (bound_at count twice) 14 }
    ensures below { (k : ℕ) → k ≤ 14 → result ≤ count * k + twice / 2 ^ k }
    ensures small { result ≤ 2 ^ 48 + 2 ^ 16 }
{
    let mut bound = twice;
    for k in 1u32..15 {
        bound = bound.min(count * k as u64 + (twice >> k));
    }
    bound
}

/// Bits that no parameter goes below, for a part of a residual, whose values count as at most `most` each.
pub fn bound_for(values: &[i32], most: u32) -> u64
    requires count { length values.now ≤ 65535 }
    requires small { length values.now * most < 2 ^ 32 }
    ensures value { result ≡ part_bound most (map folded_value values.now) }
    ensures below { result ≤ least (map folded_value values.now) }
    ensures small { result ≤ 2 ^ 48 + 2 ^ 16 }
{
    bound_of(values.len() as u64, 2 * size_of(values, most) as u64)
}

/// The sum of values without signs, each at most `most`: 32 bits are enough, of which the processor adds several at
/// once.
fn size_of(values: &[i32], most: u32) -> u32
    requires { length values.now * most < 2 ^ 32 }
    ensures value { result ≡ sum_by (distance_within most) (map folded_value values.now) }
    ensures below { 2 * result ≤ total (map folded_value values.now) + length values.now }
{
    let mut sum = 0u32;
    for value in values {
        sum += size_at(*value, most);
    }
    sum
}

/// A value without its sign, but at most `most`.
#[inline]
fn size_at(value: i32, most: u32) -> u32
    ensures value { result ≡ distance_within most (folded_value value) }
    ensures most { result ≤ most }
    ensures below { 2 * result ≤ folded_value value + 1 }
{
    value.unsigned_abs().min(most)
}
