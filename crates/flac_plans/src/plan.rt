// Plans.
ghost use Rattle.std.specs.Prelude.{◌≡◌, ◌<◌, ◌≤◌, ◌+◌, ◌-◌, ◌*◌, ◌/◌, ◌%◌, ◌^◌, ℕ, true, length, ◌++◌, ◌∷◌, [], map, take, drop, sum_by, IfOk, IfSome, IfNone, OnOk};
ghost use Rattle.std.specs.List.{range_with_len};
ghost use Rattle.flac_definitions.specs.ResidualSpelling.{folded_value};
ghost use Rattle.flac_definitions.specs.Plans.{fits, finest, best_partition, best_parameter, cost, part_of, part_bits, plan_bits, IsPlan, IsUsable};
ghost use Rattle.flac_plans.specs.Search.{part_bounds, row, table, plan_bound, IsWindow, leasts};

use crate::sums::{
    Window, all_folded, best_of, bound_for, narrowed_by, part, part_of, push_joined, push_row,
};
use flac_definitions::RicePlan;
use std::alloc::Global;
use wc_base::NoMemory;

/// The plan that `best_parameters` gives; none exactly where it has no fewer bits than `limit`.
pub fn best_below(
    alloc: Global,
    residual: &[i32],
    block: u32,
    order: u32,
    most: u32,
    limit: u64,
) -> Result<Option<RicePlan>, NoMemory>
    requires block { block ≤ 65535 }
    requires order { order < block }
    requires count { length residual.now + order ≡ block }
    requires most { most ≤ 15 }
    ensures plan { IfOk result (λ o. IfSome o (IsPlan block order (map folded_value residual.now)
        (best_partition block order most (map folded_value residual.now)))) }
    ensures none { IfOk result (λ o. IfNone o
        (limit ≤ plan_bits block order (map folded_value residual.now)
        (best_partition block order most (map folded_value residual.now)))) }
    ensures fewer { IfOk result (λ o. IfSome o (λ plan. plan.bits < limit)) }
    ensures usable { IfOk result (λ o. IfSome o (IsUsable block order)) }
    ensures small { IfOk result (λ o. IfSome o (λ plan. plan.bits < 2 ^ 63)) }
{
    if limit <= least_bits(residual, block, order, most) {
        return Ok(None);
    }
    let plan = best_parameters(alloc, residual, block, order, most)?;
    if plan.bits < limit {
        Ok(Some(plan))
    } else {
        Ok(None)
    }
}

/// A number of bits that no plan goes below, seen by the sums of the finest parts alone.
pub fn least_bits(residual: &[i32], block: u32, order: u32, most: u32) -> u64
    requires block { block ≤ 65535 }
    requires order { order < block }
    requires count { length residual.now + order ≡ block }
    requires most { most ≤ 15 }
    ensures value { result ≡ plan_bound block order most (map folded_value residual.now) }
    ensures least { result ≤ plan_bits block order (map folded_value residual.now)
        (best_partition block order most (map folded_value residual.now)) }
    ensures small { result < 2 ^ 63 + 2 ^ 32 }
{
    let finest = finest(block, order, most);
    let size = (block >> finest) as usize;
    let parts = 1usize << finest;
    10 + least_of(residual, size, order as usize, parts)
}

/// The first plan with the fewest bits, over the partition orders up to `max_partition` that fit and the parameters 0
/// to 14, for the residual of a block of at most 65535 samples behind a predictor of an order.
pub fn best_parameters(
    alloc: Global,
    residual: &[i32],
    block: u32,
    order: u32,
    max_partition: u32,
) -> Result<RicePlan, NoMemory>
    requires block { block ≤ 65535 }
    requires order { order < block }
    requires count { length residual.now + order ≡ block }
    ensures plan { IfOk result (IsPlan block order (map folded_value residual.now)
        (best_partition block order max_partition (map folded_value residual.now))) }
    ensures usable { IfOk result (IsUsable block order) }
    ensures small { IfOk result (λ plan. plan.bits < 2 ^ 63) }
{
    let zs = all_folded(alloc, residual)?;
    best_of_folded(alloc, zs.as_slice(), block, order, max_partition)
}

/// The same of folded values. No partition order above 15 fits.
fn best_of_folded(
    alloc: Global,
    zs: &[u32],
    block: u32,
    order: u32,
    max_partition: u32,
) -> Result<RicePlan, NoMemory>
    requires block { block ≤ 65535 }
    requires order { order < block }
    requires count { length zs.now + order ≡ block }
    ensures plan { IfOk result
        (IsPlan block order zs.now (best_partition block order max_partition zs.now)) }
    ensures usable { IfOk result (IsUsable block order) }
    ensures small { IfOk result (λ plan. plan.bits < 2 ^ 63) }
{
    searched(alloc, zs, block, order, max_partition.min(15))
}

/// Bits that the parts do not go below.
fn least_of(residual: &[i32], size: usize, order: usize, parts: usize) -> u64
    requires size { size ≤ 65535 }
    requires order { order < size }
    requires count { parts * size ≡ length residual.now + order }
    requires few { parts ≤ 32768 }
    ensures value { result ≡ part_bounds size order (map folded_value residual.now) parts }
    ensures least { result ≤ leasts size order (map folded_value residual.now) parts }
    ensures small { result ≤ 2 ^ 63 + 2 ^ 31 }
{
    let most = most_of(size);
    let mut sum = 0u64;
    for j in 0..parts {
        sum += bound_for(part_of(residual, size, order, j), most);
    }
    sum
}

/// As much as so many values may be for their sum to fit 32 bits.
fn most_of(size: usize) -> u32
    requires some { 0 < size }
    requires few { size ≤ 65535 }
    ensures value { result ≡ (2 ^ 32 - 1) / size }
    ensures small { result * size < 2 ^ 32 }
{
    0xffff_ffff / size as u32
}

/// The first plan with the fewest bits, by a search from the finest on.
fn searched(
    alloc: Global,
    zs: &[u32],
    block: u32,
    order: u32,
    most: u32,
) -> Result<RicePlan, NoMemory>
    requires block { block ≤ 65535 }
    requires order { order < block }
    requires count { length zs.now + order ≡ block }
    requires most { most ≤ 15 }
    ensures plan { IfOk result
        (IsPlan block order zs.now (best_partition block order most zs.now)) }
    ensures usable { IfOk result (IsUsable block order) }
    ensures small { IfOk result (λ plan. plan.bits < 2 ^ 63) }
{
    let finest = finest(block, order, most);
    let mut size = (block >> finest) as usize;
    let mut parts = 1usize << finest;
    let mut p = finest;
    let order = order as usize;
    let window = window(zs, size, order, parts);
    let width = window.high - window.low + 1;
    let mut sums = table(alloc, zs, size, order, parts, window.low, width)?;
    let mut best = level(alloc, zs, sums.as_slice(), size, order, p, parts, window)?;
    while p > 0 {
        parts /= 2;
        sums = merged(
            alloc,
            zs,
            sums.as_slice(),
            size,
            order,
            parts,
            window.low,
            width,
        )?;
        size *= 2;
        p -= 1;
        let plan = level(alloc, zs, sums.as_slice(), size, order, p, parts, window)?;
        best = better(plan, best);
    }
    Ok(best)
}

/// The first of two plans, where it has no more bits.
fn better(first: RicePlan, second: RicePlan) -> RicePlan
    ensures first { first.bits ≤ second.bits → result ≡ first }
    ensures second { second.bits < first.bits → result ≡ second }
    ensures small { first.bits < 2 ^ 63 → second.bits < 2 ^ 63 → result.bits < 2 ^ 63 }
{
    if first.bits <= second.bits {
        first
    } else {
        second
    }
}

/// Whether a partition order fits.
fn fits(block: u32, order: u32, p: u32) -> bool
    requires { p ≤ 15 }
    ensures { result ≡ fits block order p }
{
    block % (1 << p) == 0 && order < block >> p
}

/// The greatest partition order that fits a predictor's order, and is at most `most` (RFC 9639, section 9.2.7.1).
pub fn finest(block: u32, order: u32, most: u32) -> u32
    requires order { order < block }
    requires most { most ≤ 15 }
    ensures value { result ≡ finest block order most }
    ensures fits { fits block order result ≡ true }
    ensures most { result ≤ 15 }
{
    let mut p = most;
    while p > 0 && !fits(block, order, p) {
        p -= 1;
    }
    p
}

/// A window that fits all parts.
fn window(zs: &[u32], size: usize, order: usize, parts: usize) -> Window
    requires size { size ≤ 65535 }
    requires order { order < size }
    requires count { parts * size ≡ length zs.now + order }
    ensures fits { (j : ℕ) → j < parts
        → IsWindow result.low result.high (part_of size order zs.now j) }
    ensures order { result.low ≤ result.high }
    ensures most { result.high ≤ 14 }
{
    let mut window = Window { low: 14, high: 0 };
    for j in 0..parts {
        window = narrowed_by(window, part(zs, size, order, j));
    }
    Window {
        low: window.low,
        high: window.high.max(window.low),
    }
}

/// The sums of all parts.
fn table(
    alloc: Global,
    zs: &[u32],
    size: usize,
    order: usize,
    parts: usize,
    low: u32,
    width: u32,
) -> Result<Vec<u64>, NoMemory>
    requires size { size ≤ 65535 }
    requires order { order < size }
    requires count { parts * size ≡ length zs.now + order }
    requires width { low + width ≤ 15 }
    ensures { IfOk result (λ v. v.items ≡ table low width size order zs.now parts) }
{
    let mut sums = Vec::new(alloc);
    for j in 0..parts {
        push_row(part(zs, size, order, j), low, width, &mut sums)?;
    }
    Ok(sums)
}

/// The sums of one of the parts.
#[inline]
fn row_of<'a>(
    zs: &[u32],
    sums: &'a [u64],
    size: usize,
    order: usize,
    parts: usize,
    low: u32,
    width: usize,
    j: usize,
) -> &'a [u64]
    requires within { j < parts }
    requires sums { sums.now ≡ table low width size order zs.now parts }
    ensures value { result.now ≡ row low width (part_of size order zs.now j) }
    ensures count { length result.now ≡ width }
{
    let _count = zs.len();
    slice_of(sums, width, j)
}

/// One of the pieces of a width.
#[inline]
fn slice_of(sums: &[u64], width: usize, j: usize) -> &[u64]
    requires { (j + 1) * width ≤ length sums.now }
    ensures value { result.now ≡ take width (drop (j * width) sums.now) }
    ensures count { length result.now ≡ width }
{
    &sums[j * width..j * width + width]
}

/// The sums of all pairs of parts.
fn merged(
    alloc: Global,
    zs: &[u32],
    sums: &[u64],
    size: usize,
    order: usize,
    parts: usize,
    low: u32,
    width: u32,
) -> Result<Vec<u64>, NoMemory>
    requires size { size ≤ 65535 }
    requires order { order < size }
    requires count { 2 * parts * size ≡ length zs.now + order }
    requires few { parts ≤ 65535 }
    requires width { low + width ≤ 15 }
    requires sums { sums.now ≡ table low width size order zs.now (2 * parts) }
    ensures { IfOk result (λ v. v.items ≡ table low width (2 * size) order zs.now parts) }
{
    let mut out = Vec::new(alloc);
    for j in 0..parts {
        push_pair(zs, sums, size, order, parts, low, width, j, &mut out)?;
    }
    Ok(out)
}

/// Appends the sums of a pair of parts.
fn push_pair(
    zs: &[u32],
    sums: &[u64],
    size: usize,
    order: usize,
    parts: usize,
    low: u32,
    width: u32,
    j: usize,
    out: &mut Vec<u64>,
) -> Result<(), NoMemory>
    requires size { size ≤ 65535 }
    requires order { order < size }
    requires count { 2 * parts * size ≡ length zs.now + order }
    requires few { parts ≤ 65535 }
    requires width { low + width ≤ 15 }
    requires sums { sums.now ≡ table low width size order zs.now (2 * parts) }
    requires within { j < parts }
    ensures { OnOk result (out.new.items
        ≡ out.old.items ++ row low width (part_of (2 * size) order zs.now j)) }
{
    let left = part(zs, size, order, 2 * j);
    let right = part(zs, size, order, 2 * j + 1);
    let left_sums = row_of(zs, sums, size, order, 2 * parts, low, width as usize, 2 * j);
    let right_sums = row_of(
        zs,
        sums,
        size,
        order,
        2 * parts,
        low,
        width as usize,
        2 * j + 1,
    );
    push_joined(left, right, left_sums, right_sums, low, out)
}

/// The plan of one partition order.
fn level(
    alloc: Global,
    zs: &[u32],
    sums: &[u64],
    size: usize,
    order: usize,
    partition: u32,
    parts: usize,
    window: Window,
) -> Result<RicePlan, NoMemory>
    requires size { size ≤ 65535 }
    requires order { order < size }
    requires count { parts * size ≡ length zs.now + order }
    requires few { parts ≤ 32768 }
    requires window { (j : ℕ) → j < parts
        → IsWindow window.low window.high (part_of size order zs.now j) }
    requires rising { window.low ≤ window.high }
    requires most { window.high ≤ 14 }
    requires sums { sums.now
        ≡ table window.low (window.high - window.low + 1) size order zs.now parts }
    ensures partition { IfOk result (λ plan. plan.partition ≡ partition) }
    ensures parameters { IfOk result (λ plan. plan.parameters.items
        ≡ map (λ j. best_parameter (part_of size order zs.now j)) (range_with_len 0 parts)) }
    ensures bits { IfOk result (λ plan. plan.bits
        ≡ 6 + sum_by (λ j. part_bits (part_of size order zs.now j)) (range_with_len 0 parts)) }
    ensures small { IfOk result (λ plan. plan.bits < 2 ^ 63) }
{
    let mut parameters = Vec::new(alloc);
    let mut bits = 6u64;
    for j in 0..parts {
        let best = best_at(zs, sums, size, order, parts, window, j);
        push_parameter(best.0 as u8, &mut parameters)?;
        bits += 4 + best.1;
    }
    Ok(RicePlan {
        partition,
        parameters,
        bits,
    })
}

/// Appends a parameter.
#[inline]
fn push_parameter(parameter: u8, out: &mut Vec<u8>) -> Result<(), NoMemory>
    ensures { OnOk result (out.new.items ≡ out.old.items ++ parameter ∷ []) }
{
    match out.push(parameter) {
        Ok(()) => Ok(()),
        Err(_) => Err(NoMemory),
    }
}

/// The best parameter of one of the parts, and the bits with it.
fn best_at(
    zs: &[u32],
    sums: &[u64],
    size: usize,
    order: usize,
    parts: usize,
    window: Window,
    j: usize,
) -> (u32, u64)
    requires size { size ≤ 65535 }
    requires order { order < size }
    requires count { parts * size ≡ length zs.now + order }
    requires window { (j : ℕ) → j < parts
        → IsWindow window.low window.high (part_of size order zs.now j) }
    requires rising { window.low ≤ window.high }
    requires most { window.high ≤ 14 }
    requires sums { sums.now
        ≡ table window.low (window.high - window.low + 1) size order zs.now parts }
    requires within { j < parts }
    ensures best { result.0 ≡ best_parameter (part_of size order zs.now j) }
    ensures small { result.0 ≤ 14 }
    ensures bits { result.1
        ≡ cost (best_parameter (part_of size order zs.now j)) (part_of size order zs.now j) }
    ensures bound { result.1 ≤ 65535 * (2 ^ 32 + 15) }
{
    let width = (window.high - window.low + 1) as usize;
    let values = part(zs, size, order, j);
    let row = row_of(zs, sums, size, order, parts, window.low, width, j);
    best_of(values, row, window)
}
