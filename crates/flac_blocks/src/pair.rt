// Two channels that may be coded as a pair.
ghost use Rattle.std.specs.Prelude.{◌≡◌, ◌<◌, ◌^◌, pos, length, IfOk};
ghost use Rattle.std.specs.Int.{int_div_euclid};
ghost use Rattle.flac_definitions.specs.FixedPredictors.{at};
ghost use Rattle.flac_subframes.specs.Search.{AreWithin};
ghost use Rattle.flac_definitions.specs.Modes.{pairwise, side_of, mid_of};

use std::alloc::Global;
use wc_base::NoMemory;

/// Left minus right, sample by sample.
pub fn sides(alloc: Global, left: &[i32], right: &[i32]) -> Result<Vec<i32>, NoMemory>
    requires same { length left.now ≡ length right.now }
    requires left { AreWithin (2 ^ 24) left.now }
    requires right { AreWithin (2 ^ 24) right.now }
    ensures { IfOk result (λ v. v.items ≡ pairwise side_of left.now right.now) }
{
    let mut out = Vec::from_elem(alloc, 0, left.len())?;
    fill_sides(left, right, out.as_mut_slice());
    Ok(out)
}

fn fill_sides(left: &[i32], right: &[i32], out: &mut [i32])
    requires same { length left.now ≡ length right.now }
    requires left { AreWithin (2 ^ 24) left.now }
    requires right { AreWithin (2 ^ 24) right.now }
    requires count { length out.old ≡ length left.now }
    ensures { out.new ≡ pairwise side_of left.now right.now }
{
    for i in 0..out.len() {
        out[i] = side_at(left, right, i);
    }
}

#[inline]
fn side_at(left: &[i32], right: &[i32], i: usize) -> i32
    requires same { length left.now ≡ length right.now }
    requires left { AreWithin (2 ^ 24) left.now }
    requires right { AreWithin (2 ^ 24) right.now }
    requires within { i < length left.now }
    ensures { result ≡ side_of (at left.now i) (at right.now i) }
{
    left[i] - right[i]
}

/// Half of the sum, rounded down, sample by sample.
pub fn mids(alloc: Global, left: &[i32], right: &[i32]) -> Result<Vec<i32>, NoMemory>
    requires same { length left.now ≡ length right.now }
    requires left { AreWithin (2 ^ 24) left.now }
    requires right { AreWithin (2 ^ 24) right.now }
    ensures { IfOk result (λ v. v.items ≡ pairwise mid_of left.now right.now) }
{
    let mut out = Vec::from_elem(alloc, 0, left.len())?;
    fill_mids(left, right, out.as_mut_slice());
    Ok(out)
}

fn fill_mids(left: &[i32], right: &[i32], out: &mut [i32])
    requires same { length left.now ≡ length right.now }
    requires left { AreWithin (2 ^ 24) left.now }
    requires right { AreWithin (2 ^ 24) right.now }
    requires count { length out.old ≡ length left.now }
    ensures { out.new ≡ pairwise mid_of left.now right.now }
{
    for i in 0..out.len() {
        out[i] = mid_at(left, right, i);
    }
}

#[inline]
fn mid_at(left: &[i32], right: &[i32], i: usize) -> i32
    requires same { length left.now ≡ length right.now }
    requires left { AreWithin (2 ^ 24) left.now }
    requires right { AreWithin (2 ^ 24) right.now }
    requires within { i < length left.now }
    ensures { result ≡ mid_of (at left.now i) (at right.now i) }
{
    half(left[i] + right[i])
}

/// Half of a number, rounded down.
#[inline]
fn half(sum: i32) -> i32
    ensures { result ≡ int_div_euclid sum (pos 2) }
{
    sum >> 1
}
