// Residuals of fixed predictors, order by order.
ghost use Rattle.std.specs.Prelude.{◌≡◌, ◌<◌, ◌≤◌, ◌+◌, ◌-◌, ◌*◌, ◌^◌, ◌+ℤ◌, ◌-ℤ◌, ◌*ℤ◌, ◌≤ℤ◌, pos, negsuc, true, false, length, take, map, IfOk, IfSome, IfNone};
ghost use Rattle.std.specs.List.{range_with_len};
ghost use Rattle.flac_definitions.specs.FixedPredictors.{at, predicted, residual_at, residuals, are_in_range, is_in_range};
ghost use Rattle.flac_subframes.specs.Search.{IsWithin, AreWithin, differences};

use std::alloc::Global;
use wc_base::NoMemory;

/// The residual of a fixed predictor of order 0 to 4 (RFC 9639, section 9.2.5); none where a value is outside of
/// -2^31 + 1 to 2^31 - 1.
pub fn residual_of(alloc: Global, samples: &[i32], order: u32) -> Result<Option<Vec<i32>>, NoMemory>
    requires some { order < length samples.now }
    requires order { order ≤ 4 }
    ensures value { IfOk result (λ o. IfSome o (λ v. v.items ≡ residuals order samples.now)) }
    ensures range { IfOk result
        (λ o. IfSome o (λ _. are_in_range (residuals order samples.now) ≡ true)) }
    ensures none { IfOk result
        (λ o. IfNone o (are_in_range (residuals order samples.now) ≡ false)) }
{
    if are_within(samples, 1 << 25) {
        match small_residual(alloc, samples, order) {
            Ok(residual) => Ok(Some(residual)),
            Err(e) => Err(e),
        }
    } else {
        large_residual(alloc, samples, order)
    }
}

/// The residual of samples that may have 32 bits.
fn large_residual(alloc: Global, samples: &[i32], order: u32) -> Result<Option<Vec<i32>>, NoMemory>
    requires some { order < length samples.now }
    requires order { order ≤ 4 }
    ensures value { IfOk result (λ o. IfSome o (λ v. v.items ≡ residuals order samples.now)) }
    ensures range { IfOk result
        (λ o. IfSome o (λ _. are_in_range (residuals order samples.now) ≡ true)) }
    ensures none { IfOk result
        (λ o. IfNone o (are_in_range (residuals order samples.now) ≡ false)) }
{
    let mut out = Vec::from_elem(alloc, 0, samples.len() - order as usize)?;
    if fill_residual(samples, order, out.as_mut_slice()) {
        Ok(Some(out))
    } else {
        Ok(None)
    }
}

/// Whether all values are in range, which it then writes.
fn fill_residual(samples: &[i32], order: u32, out: &mut [i32]) -> bool
    requires count { length out.old + order ≡ length samples.now }
    requires order { order ≤ 4 }
    ensures value { result ≡ true → out.new ≡ residuals order samples.now }
    ensures range { result ≡ are_in_range (residuals order samples.now) }
{
    for j in 0..out.len() {
        match value_at(samples, order, j) {
            Some(value) => out[j] = value,
            None => return false,
        }
    }
    true
}

/// One value of a residual, if it is in range.
#[inline]
fn value_at(samples: &[i32], order: u32, j: usize) -> Option<i32>
    requires order { order ≤ 4 }
    requires within { order + j < length samples.now }
    ensures value { IfSome result (λ v. v ≡ residual_at order samples.now (order + j)) }
    ensures some { IfSome result
        (λ _. is_in_range (residual_at order samples.now (order + j)) ≡ true) }
    ensures none { IfNone result
        (is_in_range (residual_at order samples.now (order + j)) ≡ false) }
{
    narrowed(residual_at(samples, order, order as usize + j))
}

/// A value in 32 bits, if it is in range.
#[inline]
#[tactic(auto, using(crate::proofs::Ranges::value_above, crate::proofs::Ranges::value_below, crate::proofs::Ranges::value_inside))]
fn narrowed(value: i64) -> Option<i32>
    ensures value { IfSome result (λ v. v ≡ value) }
    ensures some { IfSome result (λ _. is_in_range value ≡ true) }
    ensures none { IfNone result (is_in_range value ≡ false) }
{
    if value < -0x7fff_ffff {
        return None;
    }
    if value > 0x7fff_ffff {
        return None;
    }
    Some(value as i32)
}

/// The residual of one sample.
fn residual_at(samples: &[i32], order: u32, i: usize) -> i64
    requires order { order ≤ 4 }
    requires from { order ≤ i }
    requires within { i < length samples.now }
    ensures { result ≡ residual_at order samples.now i }
{
    let sample = sample_at(samples, i);
    let predicted = predicted_at(samples, order, i);
    sample - predicted
}

/// One sample.
#[inline]
fn sample_at(samples: &[i32], i: usize) -> i64
    requires { i < length samples.now }
    ensures value { result ≡ at samples.now i }
    ensures low { negsuc (2 ^ 31) ≤ℤ result }
    ensures high { result ≤ℤ pos (2 ^ 31) }
{
    samples[i] as i64
}

/// The prediction of one sample from those before it.
fn predicted_at(samples: &[i32], order: u32, i: usize) -> i64
    requires order { order ≤ 4 }
    requires from { order ≤ i }
    requires within { i < length samples.now }
    ensures value { result ≡ predicted order samples.now i }
    ensures low { negsuc (2 ^ 36) ≤ℤ result }
    ensures high { result ≤ℤ pos (2 ^ 36) }
{
    match order {
        0 => 0,
        1 => sample_at(samples, i - 1),
        2 => predicted_by_two(sample_at(samples, i - 1), sample_at(samples, i - 2)),
        3 => predicted_by_three(
            sample_at(samples, i - 1),
            sample_at(samples, i - 2),
            sample_at(samples, i - 3),
        ),
        _ => predicted_by_four(
            sample_at(samples, i - 1),
            sample_at(samples, i - 2),
            sample_at(samples, i - 3),
            sample_at(samples, i - 4),
        ),
    }
}

#[inline]
fn predicted_by_two(a: i64, b: i64) -> i64
    requires a_low { negsuc (2 ^ 31) ≤ℤ a }
    requires a_high { a ≤ℤ pos (2 ^ 31) }
    requires b_low { negsuc (2 ^ 31) ≤ℤ b }
    requires b_high { b ≤ℤ pos (2 ^ 31) }
    ensures value { result ≡ (pos 2 *ℤ a) -ℤ b }
    ensures low { negsuc (2 ^ 36) ≤ℤ result }
    ensures high { result ≤ℤ pos (2 ^ 36) }
{
    2 * a - b
}

#[inline]
fn predicted_by_three(a: i64, b: i64, c: i64) -> i64
    requires a_low { negsuc (2 ^ 31) ≤ℤ a }
    requires a_high { a ≤ℤ pos (2 ^ 31) }
    requires b_low { negsuc (2 ^ 31) ≤ℤ b }
    requires b_high { b ≤ℤ pos (2 ^ 31) }
    requires c_low { negsuc (2 ^ 31) ≤ℤ c }
    requires c_high { c ≤ℤ pos (2 ^ 31) }
    ensures value { result ≡ ((pos 3 *ℤ a) -ℤ (pos 3 *ℤ b)) +ℤ c }
    ensures low { negsuc (2 ^ 36) ≤ℤ result }
    ensures high { result ≤ℤ pos (2 ^ 36) }
{
    let pair = 3 * a - 3 * b;
    pair + c
}

#[inline]
fn predicted_by_four(a: i64, b: i64, c: i64, d: i64) -> i64
    requires a_low { negsuc (2 ^ 31) ≤ℤ a }
    requires a_high { a ≤ℤ pos (2 ^ 31) }
    requires b_low { negsuc (2 ^ 31) ≤ℤ b }
    requires b_high { b ≤ℤ pos (2 ^ 31) }
    requires c_low { negsuc (2 ^ 31) ≤ℤ c }
    requires c_high { c ≤ℤ pos (2 ^ 31) }
    requires d_low { negsuc (2 ^ 31) ≤ℤ d }
    requires d_high { d ≤ℤ pos (2 ^ 31) }
    ensures value { result ≡ (((pos 4 *ℤ a) -ℤ (pos 6 *ℤ b)) +ℤ (pos 4 *ℤ c)) -ℤ d }
    ensures low { negsuc (2 ^ 36) ≤ℤ result }
    ensures high { result ≤ℤ pos (2 ^ 36) }
{
    let front = plus_four(four_and_six(a, b), c);
    minus(front, d)
}

#[inline]
fn four_and_six(a: i64, b: i64) -> i64
    requires a_low { negsuc (2 ^ 31) ≤ℤ a }
    requires a_high { a ≤ℤ pos (2 ^ 31) }
    requires b_low { negsuc (2 ^ 31) ≤ℤ b }
    requires b_high { b ≤ℤ pos (2 ^ 31) }
    ensures value { result ≡ (pos 4 *ℤ a) -ℤ (pos 6 *ℤ b) }
    ensures low { negsuc (2 ^ 35) ≤ℤ result }
    ensures high { result ≤ℤ pos (2 ^ 35) }
{
    4 * a - 6 * b
}

#[inline]
fn plus_four(front: i64, c: i64) -> i64
    requires front_low { negsuc (2 ^ 35) ≤ℤ front }
    requires front_high { front ≤ℤ pos (2 ^ 35) }
    requires c_low { negsuc (2 ^ 31) ≤ℤ c }
    requires c_high { c ≤ℤ pos (2 ^ 31) }
    ensures value { result ≡ front +ℤ (pos 4 *ℤ c) }
    ensures low { negsuc (2 ^ 35 + 2 ^ 34) ≤ℤ result }
    ensures high { result ≤ℤ pos (2 ^ 35 + 2 ^ 34) }
{
    front + 4 * c
}

#[inline]
fn minus(front: i64, d: i64) -> i64
    requires front_low { negsuc (2 ^ 35 + 2 ^ 34) ≤ℤ front }
    requires front_high { front ≤ℤ pos (2 ^ 35 + 2 ^ 34) }
    requires d_low { negsuc (2 ^ 31) ≤ℤ d }
    requires d_high { d ≤ℤ pos (2 ^ 31) }
    ensures value { result ≡ front -ℤ d }
    ensures low { negsuc (2 ^ 36) ≤ℤ result }
    ensures high { result ≤ℤ pos (2 ^ 36) }
{
    front - d
}

/// The residual of samples that are small, order by order.
pub fn small_residual(alloc: Global, samples: &[i32], order: u32) -> Result<Vec<i32>, NoMemory>
    requires some { order < length samples.now }
    requires order { order ≤ 4 }
    requires within { AreWithin (2 ^ 25) samples.now }
    ensures value { IfOk result (λ v. v.items ≡ residuals order samples.now) }
    ensures range { IfOk result (λ _. are_in_range (residuals order samples.now) ≡ true) }
{
    let mut current = Vec::from_slice(alloc, samples)?;
    let mut bound = 1u32 << 25;
    for o in 0..order {
        to_next_order(samples, o, &mut current, bound);
        bound *= 2;
    }
    Ok(current)
}

/// Whether each is at most `most`, above and below 0.
pub fn are_within(values: &[i32], most: u32) -> bool
    requires { most ≤ 2 ^ 30 }
    ensures yes { result ≡ true → AreWithin most values.now }
    ensures no { result ≡ false → AreWithin most values.now → ⊥ }
{
    let mut all = true;
    for value in values {
        if !is_within(*value, most) {
            all = false;
        }
    }
    all
}

#[inline]
fn is_within(value: i32, most: u32) -> bool
    requires { most ≤ 2 ^ 30 }
    ensures yes { result ≡ true → IsWithin most value }
    ensures no { result ≡ false → IsWithin most value → ⊥ }
{
    let high = most as i32;
    value <= high && -high <= value
}

/// Puts the residual of the next order in the place of that of one of the orders 0 to 3.
pub fn to_next_order(samples: &[i32], order: u32, residual: &mut Vec<i32>, most: u32)
    requires order { order ≤ 3 }
    requires residual { residual.old.items ≡ residuals order samples.now }
    requires most { most ≤ 2 ^ 29 }
    requires within { AreWithin most residual.old.items }
    ensures value { residual.new.items ≡ residuals (order + 1) samples.now }
    ensures within { AreWithin (2 * most) residual.new.items }
{
    let _known = (samples.len(), order);
    to_differences(residual, most);
}

/// Puts the differences of neighbours in the place of values.
fn to_differences(values: &mut Vec<i32>, most: u32)
    requires most { most ≤ 2 ^ 29 }
    requires within { AreWithin most values.old.items }
    ensures { values.new.items ≡ differences values.old.items }
{
    let count = values.len();
    fill_differences(values.as_mut_slice(), most);
    values.truncate(count.saturating_sub(1));
}

/// Puts the difference to the next value in the place of each, but for the last.
fn fill_differences(values: &mut [i32], most: u32)
    requires most { most ≤ 2 ^ 29 }
    requires within { AreWithin most values.old }
    ensures { take (length values.old - 1) values.new ≡ differences values.old }
{
    for j in 1..values.len() {
        values[j - 1] = difference(values[j - 1], values[j], most);
    }
}

/// The difference of neighbours.
#[inline]
pub fn difference(before: i32, here: i32, most: u32) -> i32
    requires most { most ≤ 2 ^ 29 }
    requires before { IsWithin most before }
    requires here { IsWithin most here }
    ensures { result ≡ here -ℤ before }
{
    let _most = most;
    here - before
}
