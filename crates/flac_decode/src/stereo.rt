// Channels that are coded as a pair.
ghost use Rattle.std.specs.Prelude.{◌≡◌, ◌-ℤ◌, ◌+ℤ◌, ◌+◌, ◌<◌, ◌≤◌, ◌^◌, length, unsigned_abs, true, false, None};
ghost use Rattle.flac_decode.specs.Bounds.{AreSmall};
ghost use Rattle.flac_decode.specs.Reading.{Combines};
ghost use Rattle.flac_definitions.specs.Stereo.{channel_by, right_of_side, left_of_side, left_of_mid, right_of_mid, plain_channels, channel_pair};

use crate::prediction::lift;

/// The channels from the coded ones; false where a sample does not fit.
#[tactic(auto, unfolding(flac_definitions::specs::Stereo::plain_channels))]
pub fn restore_channels(assignment: u8, depth: u32, block: usize, samples: &mut [i64]) -> bool
    requires some { 0 < depth }
    requires depth { depth ≤ 32 }
    requires pair { 7 < assignment → length samples.old ≡ block + block }
    requires small { AreSmall 32 samples.old }
    ensures small { result ≡ true → AreSmall 32 samples.new }
    ensures channels { Combines (plain_channels assignment depth block samples.old) result samples.new }
{
    if assignment < 8 {
        return true;
    }
    let (first, second) = samples.split_at_mut(block);
    if assignment == 8 {
        restore_right(depth, first, second)
    } else if assignment == 9 {
        restore_left(depth, second, first)
    } else if assignment == 10 {
        restore_both(depth, first, second)
    } else {
        true
    }
}

/// Puts the right channel in place of the side channel; false where a sample does not fit.
#[inline(never)]
pub fn restore_right(depth: u32, left: &[i64], side: &mut [i64]) -> bool
    requires same { length side.old ≡ length left.now }
    requires some { 0 < depth }
    requires depth { depth ≤ 32 }
    requires left { AreSmall 32 left.now }
    requires side { AreSmall 32 side.old }
    ensures small { result ≡ true → AreSmall 32 side.new }
    ensures channel { Combines (channel_by right_of_side depth left.now side.old) result side.new }
{
    let mut lifted = 0;
    for i in 0..side.len() {
        let right = difference(left[i], side[i]);
        lifted |= lift(depth, right);
        side[i] = right;
    }
    all_fit(depth, lifted)
}

/// Puts the left channel in place of the side channel; false where a sample does not fit.
#[inline(never)]
pub fn restore_left(depth: u32, right: &[i64], side: &mut [i64]) -> bool
    requires same { length side.old ≡ length right.now }
    requires some { 0 < depth }
    requires depth { depth ≤ 32 }
    requires right { AreSmall 32 right.now }
    requires side { AreSmall 32 side.old }
    ensures small { result ≡ true → AreSmall 32 side.new }
    ensures channel { Combines (channel_by left_of_side depth right.now side.old) result side.new }
{
    let mut lifted = 0;
    for i in 0..side.len() {
        let left = total(side[i], right[i]);
        lifted |= lift(depth, left);
        side[i] = left;
    }
    all_fit(depth, lifted)
}

/// Puts both channels in place of their middle and side; false where a sample does not fit.
#[inline(never)]
pub fn restore_both(depth: u32, mid: &mut [i64], side: &mut [i64]) -> bool
    requires same { length side.old ≡ length mid.old }
    requires some { 0 < depth }
    requires depth { depth ≤ 32 }
    requires mid { AreSmall 32 mid.old }
    requires side { AreSmall 32 side.old }
    ensures left_small { result ≡ true → AreSmall 32 mid.new }
    ensures right_small { result ≡ true → AreSmall 32 side.new }
    ensures left { result ≡ true → Combines (channel_by left_of_mid depth side.old mid.old) result mid.new }
    ensures right { result ≡ true → Combines (channel_by right_of_mid depth mid.old side.old) result side.new }
    ensures bad { result ≡ false → channel_pair (channel_by left_of_mid depth side.old mid.old) (channel_by right_of_mid depth mid.old side.old) ≡ None }
{
    let mut lifted = 0;
    for i in 0..side.len() {
        let right = right_of_mid(mid[i], side[i]);
        let left = left_of_mid(side[i], mid[i]);
        lifted |= lift(depth, left) | lift(depth, right);
        mid[i] = left;
        side[i] = right;
    }
    all_fit(depth, lifted)
}

/// Whether the lifted samples fit of which this is the union.
#[inline(always)]
fn all_fit(depth: u32, lifted: u64) -> bool
    requires { depth ≤ 32 }
    ensures fits { result ≡ true → lifted < 2 ^ depth }
    ensures bad { result ≡ false → 2 ^ depth ≤ lifted }
{
    lifted < 1 << depth
}

#[inline(always)]
fn difference(a: i64, b: i64) -> i64
    requires a { unsigned_abs a ≤ 2 ^ 32 }
    requires b { unsigned_abs b ≤ 2 ^ 32 }
    ensures difference { result ≡ a -ℤ b }
    ensures small { unsigned_abs result ≤ 2 ^ 34 }
{
    a - b
}

#[inline(always)]
fn total(a: i64, b: i64) -> i64
    requires a { unsigned_abs a ≤ 2 ^ 32 }
    requires b { unsigned_abs b ≤ 2 ^ 32 }
    ensures total { result ≡ a +ℤ b }
    ensures small { unsigned_abs result ≤ 2 ^ 34 }
{
    a + b
}

#[inline(always)]
fn right_of_mid(mid: i64, side: i64) -> i64
    requires mid { unsigned_abs mid ≤ 2 ^ 32 }
    requires side { unsigned_abs side ≤ 2 ^ 32 }
    ensures right { result ≡ right_of_mid mid side }
    ensures small { unsigned_abs result ≤ 2 ^ 34 }
{
    mid - (side >> 1)
}

#[inline(always)]
fn left_of_mid(side: i64, mid: i64) -> i64
    requires mid { unsigned_abs mid ≤ 2 ^ 32 }
    requires side { unsigned_abs side ≤ 2 ^ 32 }
    ensures left { result ≡ left_of_mid side mid }
    ensures small { unsigned_abs result ≤ 2 ^ 34 }
{
    mid - (side >> 1) + side
}
