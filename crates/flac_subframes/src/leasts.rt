// Lengths below which no candidate of an order is, for all orders at once.
ghost use Rattle.std.specs.Prelude.{◌≡◌, ◌<◌, ◌≤◌, ◌+◌, ◌-◌, ◌*◌, ◌/◌, ◌%◌, ◌^◌, ℕ, length, map, max, sum_by, slice_index, IfSome};
ghost use Rattle.std.specs.List.{range_with_len};
ghost use Rattle.flac_definitions.specs.ResidualSpelling.{folded_value};
ghost use Rattle.flac_definitions.specs.FixedPredictors.{at, residual_at, folded_residual};
ghost use Rattle.flac_definitions.specs.Candidates.{candidate_bits};
ghost use Rattle.flac_subframes.specs.Search.{IsWithin, AreWithin, best_of_order};
ghost use Rattle.flac_subframes.specs.Leasts.{sizes_in, IsCut, IsLeast, AreLeasts, AreLengths};

use crate::orders::{are_within, difference};
use flac_plans::{bound_of, finest, no_plan_is_below_leasts};

/// How samples are cut into parts of a residual.
#[derive(Clone, Copy)]
struct Parts {
    size: usize,
    count: usize,
}

/// A number for each of the orders 0 to 4.
#[derive(Clone, Copy)]
struct Sums {
    none: u64,
    one: u64,
    two: u64,
    three: u64,
    four: u64,
}

/// Sums of residuals without signs, for each of the orders 0 to 4.
#[derive(Clone, Copy)]
struct Sizes {
    none: u32,
    one: u32,
    two: u32,
    three: u32,
    four: u32,
}

/// Lengths below which no candidate of the orders 0 to 4 is, at partition orders up to `most`, from one pass over the
/// samples. None where the finest parts have four samples or fewer, or where samples are too large for it.
pub fn least_lengths(samples: &[i32], depth: u32, most: u32) -> Option<[u64; 5]>
    requires some { 0 < length samples.now }
    requires count { length samples.now ≤ 65535 }
    requires depth { depth ≤ 33 }
    requires most { most ≤ 6 }
    ensures long { IfSome result (λ _. 4 < length samples.now) }
    ensures lengths { IfSome result (AreLengths depth most samples.now) }
{
    let parts = parts_of(samples.len(), most);
    if parts.size <= 4 {
        return None;
    }
    let within = most_within(parts.size);
    if are_within(samples, within) {
        Some(lengths_of(samples, depth, most, parts, within))
    } else {
        None
    }
}

/// The finest parts into which samples are cut, at partition orders up to one and for a predictor of order 0. Where they
/// have more than four samples, they are the finest for each predictor.
fn parts_of(count: usize, most: u32) -> Parts
    requires some { 0 < count }
    requires few { count ≤ 65535 }
    requires most { most ≤ 6 }
    ensures { 4 < result.size → IsCut count most result }
{
    let partition = finest(count as u32, 0, most);
    Parts {
        size: count >> partition,
        count: 1 << partition,
    }
}

/// As much as samples may be for the sum of a part's residuals of any order to fit 32 bits.
fn most_within(size: usize) -> u32
    requires some { 0 < size }
    requires few { size ≤ 65535 }
    ensures small { size * (16 * result) < 2 ^ 32 }
    ensures most { result ≤ 2 ^ 25 }
{
    (0x0fff_ffff / size as u32).min(1 << 25)
}

/// The same from parts of more than four samples, where samples are at most `within`, above and below 0.
fn lengths_of(samples: &[i32], depth: u32, most: u32, parts: Parts, within: u32) -> [u64; 5]
    requires count { length samples.now ≤ 65535 }
    requires depth { depth ≤ 33 }
    requires most { most ≤ 6 }
    requires cut { IsCut (length samples.now) most parts }
    requires small { parts.size * (16 * within) < 2 ^ 32 }
    requires bound { within ≤ 2 ^ 25 }
    requires within { AreWithin within samples.now }
    ensures { AreLengths depth most samples.now result }
{
    no_plan_is_below_leasts();
    let _most = most;
    let sums = all_leasts(samples, parts, within);
    let depth = depth as u64;
    [
        18 + sums.none,
        18 + depth + sums.one,
        18 + 2 * depth + sums.two,
        18 + 3 * depth + sums.three,
        18 + 4 * depth + sums.four,
    ]
}

/// Bits that the finest parts do not go below, for each order.
fn all_leasts(samples: &[i32], parts: Parts, most: u32) -> Sums
    requires size { 4 < parts.size }
    requires few { parts.count ≤ 64 }
    requires whole { parts.count * parts.size ≡ length samples.now }
    requires count { length samples.now ≤ 65535 }
    requires small { parts.size * (16 * most) < 2 ^ 32 }
    requires most { most ≤ 2 ^ 25 }
    requires within { AreWithin most samples.now }
    ensures { AreLeasts samples.now parts.size parts.count result }
{
    let mut sums = Sums {
        none: 0,
        one: 0,
        two: 0,
        three: 0,
        four: 0,
    };
    for j in 0..parts.count {
        sums = with_part(samples, parts.size, most, j, sums);
    }
    sums
}

/// The same with one part more.
fn with_part(samples: &[i32], size: usize, most: u32, j: usize, sums: Sums) -> Sums
    requires size { 4 < size }
    requires few { j < 64 }
    requires there { (j + 1) * size ≤ length samples.now }
    requires count { length samples.now ≤ 65535 }
    requires small { size * (16 * most) < 2 ^ 32 }
    requires most { most ≤ 2 ^ 25 }
    requires within { AreWithin most samples.now }
    requires so_far { AreLeasts samples.now size j sums }
    ensures { AreLeasts samples.now size (j + 1) result }
{
    let from = (j * size).max(4);
    let sizes = sizes_between(samples, from, (j + 1) * size, most);
    Sums {
        none: with_least(samples, size, 0, j, sums.none, sizes.none),
        one: with_least(samples, size, 1, j, sums.one, sizes.one),
        two: with_least(samples, size, 2, j, sums.two, sizes.two),
        three: with_least(samples, size, 3, j, sums.three, sizes.three),
        four: with_least(samples, size, 4, j, sums.four, sizes.four),
    }
}

/// The same for one order.
#[inline]
fn with_least(samples: &[i32], size: usize, order: usize, j: usize, sum: u64, part: u32) -> u64
    requires size { 4 < size }
    requires order { order ≤ 4 }
    requires few { j < 64 }
    requires there { (j + 1) * size ≤ length samples.now }
    requires count { length samples.now ≤ 65535 }
    requires so_far { IsLeast samples.now size order j sum }
    requires part { 2 * part ≤ sizes_in order samples.now (max (j * size) 4)
        ((j + 1) * size - max (j * size) 4) }
    ensures { IsLeast samples.now size order (j + 1) result }
{
    no_plan_is_below_leasts();
    let _samples = samples.len();
    let count = (j + 1) * size - order - (j * size).saturating_sub(order);
    sum + bound_of(count as u64, 2 * part as u64)
}

/// The sums of the residuals of samples from a place behind the fourth on.
fn sizes_between(samples: &[i32], from: usize, to: usize, most: u32) -> Sizes
    requires from { 4 ≤ from }
    requires rising { from ≤ to }
    requires to { to ≤ length samples.now }
    requires small { (to - from) * (16 * most) < 2 ^ 32 }
    requires most { most ≤ 2 ^ 25 }
    requires within { AreWithin most samples.now }
    ensures none { 2 * result.none ≤ sizes_in 0 samples.now from (to - from) }
    ensures one { 2 * result.one ≤ sizes_in 1 samples.now from (to - from) }
    ensures two { 2 * result.two ≤ sizes_in 2 samples.now from (to - from) }
    ensures three { 2 * result.three ≤ sizes_in 3 samples.now from (to - from) }
    ensures four { 2 * result.four ≤ sizes_in 4 samples.now from (to - from) }
{
    let mut none = 0u32;
    let mut one = 0u32;
    let mut two = 0u32;
    let mut three = 0u32;
    let mut four = 0u32;
    for i in from..to {
        let sample = sample_at(samples, i, most);
        let first = first_at(samples, i, most);
        let second = second_at(samples, i, most);
        let third = third_at(samples, i, most);
        let fourth = fourth_at(samples, i, most);
        none += size_of(sample, most);
        one += size_of(first, 2 * most);
        two += size_of(second, 4 * most);
        three += size_of(third, 8 * most);
        four += size_of(fourth, 16 * most);
    }
    Sizes {
        none,
        one,
        two,
        three,
        four,
    }
}

/// A value without its sign.
#[inline]
fn size_of(value: i32, most: u32) -> u32
    requires { IsWithin most value }
    ensures most { result ≤ most }
    ensures below { 2 * result ≤ folded_value value + 1 }
{
    let _most = most;
    value.unsigned_abs()
}

/// One sample, which is a value of the residual of order 0.
#[inline]
fn sample_at(samples: &[i32], i: usize, most: u32) -> i32
    requires there { i < length samples.now }
    requires within { AreWithin most samples.now }
    ensures value { result ≡ residual_at 0 samples.now i }
    ensures within { IsWithin most result }
{
    let _most = most;
    samples[i]
}

/// One value of the residual of order 1.
#[inline]
fn first_at(samples: &[i32], i: usize, most: u32) -> i32
    requires from { 1 ≤ i }
    requires there { i < length samples.now }
    requires most { most ≤ 2 ^ 25 }
    requires within { AreWithin most samples.now }
    ensures value { result ≡ residual_at 1 samples.now i }
    ensures within { IsWithin (2 * most) result }
{
    let before = sample_at(samples, i - 1, most);
    let here = sample_at(samples, i, most);
    difference(before, here, most)
}

/// One value of the residual of order 2.
#[inline]
fn second_at(samples: &[i32], i: usize, most: u32) -> i32
    requires from { 2 ≤ i }
    requires there { i < length samples.now }
    requires most { most ≤ 2 ^ 25 }
    requires within { AreWithin most samples.now }
    ensures value { result ≡ residual_at 2 samples.now i }
    ensures within { IsWithin (4 * most) result }
{
    let before = first_at(samples, i - 1, most);
    let here = first_at(samples, i, most);
    difference(before, here, 2 * most)
}

/// One value of the residual of order 3.
#[inline]
fn third_at(samples: &[i32], i: usize, most: u32) -> i32
    requires from { 3 ≤ i }
    requires there { i < length samples.now }
    requires most { most ≤ 2 ^ 25 }
    requires within { AreWithin most samples.now }
    ensures value { result ≡ residual_at 3 samples.now i }
    ensures within { IsWithin (8 * most) result }
{
    let before = second_at(samples, i - 1, most);
    let here = second_at(samples, i, most);
    difference(before, here, 4 * most)
}

/// One value of the residual of order 4.
#[inline]
fn fourth_at(samples: &[i32], i: usize, most: u32) -> i32
    requires from { 4 ≤ i }
    requires there { i < length samples.now }
    requires most { most ≤ 2 ^ 25 }
    requires within { AreWithin most samples.now }
    ensures value { result ≡ residual_at 4 samples.now i }
    ensures within { IsWithin (16 * most) result }
{
    let before = third_at(samples, i - 1, most);
    let here = third_at(samples, i, most);
    difference(before, here, 8 * most)
}

/// The first of the orders up to `last` whose length is the least.
pub fn least_place(lengths: [u64; 5], last: u32) -> u32
    requires { last ≤ 4 }
    ensures place { result ≤ last }
    ensures least { (order : ℕ) → order ≤ last
        → slice_index lengths result ≤ slice_index lengths order }
{
    let mut best = 0;
    for order in 1..last + 1 {
        if lengths[order as usize] < lengths[best as usize] {
            best = order;
        }
    }
    best
}
