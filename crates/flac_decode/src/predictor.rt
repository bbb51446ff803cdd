// Predicted subframes.
ghost use Rattle.std.specs.Prelude.{◌≡◌, ◌+◌, ◌-◌, ◌*◌, ◌^◌, ◌<◌, ◌≤◌, length, take, reverse, pos, true, IfOk, OnOk, unsigned_abs};
ghost use Rattle.flac_definitions.specs.Residual.{residual_at};
ghost use Rattle.flac_decode.specs.Bounds.{AreSmall};
ghost use Rattle.flac_decode.specs.Reading.{RestoresBehind};
ghost use Rattle.flac_definitions.specs.Prediction.{samples_behind};
ghost use Rattle.flac_decode.specs.Reading.{Fills, FillsWith, TellsShort};
ghost use Rattle.flac_decode.specs.Shortness.{short_residual, short_fixed, short_coefficients, short_linear};
ghost use Rattle.flac_definitions.specs.Subframe.{samples_at, predictor_at, fixed_at, coefficients_at, linear_at};
ghost use Rattle.flac_definitions.specs.Results.{without_fault};
ghost use Rattle.flac_definitions.specs.Prediction.{fixed_coefficients};

use crate::fault::ReadFault;
use crate::fields::{read_bits, read_samples};
use crate::prediction::{restore, restore_any_order, restore_in};
use flac_bits::BitReader;
use flac_rice::{ResidualFault, read_residual_into};

/// The residual of a block.
fn read_block_residual(
    r: &mut BitReader<'_>,
    block: u32,
    order: u32,
    residual: &mut Vec<i32>,
) -> Result<(), ReadFault>
    requires { order ≤ block }
    ensures read { Fills (without_fault (residual_at block order r.old)) result r.new residual.new.items }
    ensures short { TellsShort result (short_residual (residual_at block order r.old)) }
    ensures length { OnOk result (length residual.new.items ≡ block - order) }
    ensures bytes { r.new.bytes ≡ r.old.bytes }
{
    // What is there already is written over.
    if residual.resize((block - order) as usize, 0).is_err() {
        return Err(ReadFault::NoMemory);
    }
    match read_residual_into(r, block, order, residual.as_mut_slice()) {
        Ok(()) => Ok(()),
        Err(ResidualFault::Short { .. }) => Err(ReadFault::Short),
        Err(ResidualFault::NoMemory) => Err(ReadFault::NoMemory),
        Err(_) => Err(ReadFault::Refused),
    }
}

/// Fills in the samples behind those that are there, one for each coefficient.
fn predict(
    coefficients: &[i64],
    shift: u32,
    depth: u32,
    residual: &[i32],
    samples: &mut [i64],
) -> bool
    requires count { length coefficients.now ≤ 32 }
    requires coefficients { AreSmall 14 coefficients.now }
    requires shift { shift < 16 }
    requires depth { depth ≤ 33 }
    requires some { 0 < depth }
    requires residual { length residual.now + length coefficients.now ≡ length samples.old }
    requires warm { AreSmall 32 (take (length coefficients.now) samples.old) }
    requires narrow { AreSmall (depth - 1) (take (length coefficients.now) samples.old) }
    ensures narrow { result ≡ true → AreSmall (depth - 1) samples.new }
    ensures samples { RestoresBehind (length coefficients.now) coefficients.now shift depth residual.now result samples.old samples.new }
{
    let c = coefficients;
    match c.len() {
        0 => restore::<0>(c, shift, depth, residual, samples),
        1 => restore::<1>(c, shift, depth, residual, samples),
        2 => restore::<2>(c, shift, depth, residual, samples),
        3 => restore::<3>(c, shift, depth, residual, samples),
        4 => restore::<4>(c, shift, depth, residual, samples),
        5 => restore::<5>(c, shift, depth, residual, samples),
        6 => restore::<6>(c, shift, depth, residual, samples),
        7 => restore::<7>(c, shift, depth, residual, samples),
        8 => restore::<8>(c, shift, depth, residual, samples),
        9 => restore::<9>(c, shift, depth, residual, samples),
        10 => restore::<10>(c, shift, depth, residual, samples),
        11 => restore::<11>(c, shift, depth, residual, samples),
        12 => restore::<12>(c, shift, depth, residual, samples),
        _ => restore_any_order(c, shift, depth, residual, samples),
    }
}

/// Reads a residual, and fills in the samples behind those that are there.
fn read_predicted_samples(
    r: &mut BitReader<'_>,
    coefficients: &[i64],
    shift: u32,
    depth: u32,
    residual: &mut Vec<i32>,
    samples: &mut [i64],
) -> Result<(), ReadFault>
    requires count { length coefficients.now ≤ 32 }
    requires coefficients { AreSmall 14 coefficients.now }
    requires shift { shift < 16 }
    requires depth { depth ≤ 33 }
    requires some { 0 < depth }
    requires block { length samples.old < 2 ^ 32 }
    requires order { length coefficients.now ≤ length samples.old }
    requires warm { AreSmall 32 (take (length coefficients.now) samples.old) }
    requires narrow { AreSmall (depth - 1) (take (length coefficients.now) samples.old) }
    ensures narrow { OnOk result (AreSmall (depth - 1) samples.new) }
    ensures read { Fills (predictor_at coefficients.now shift depth (length samples.old) (take (length coefficients.now) samples.old) r.old) result r.new samples.new }
    ensures short { TellsShort result
        (short_residual (residual_at (length samples.old) (length coefficients.now) r.old)) }
    ensures bytes { r.new.bytes ≡ r.old.bytes }
{
    if let Err(e) = read_block_residual(
        r,
        samples.len() as u32,
        coefficients.len() as u32,
        residual,
    ) {
        return Err(e);
    }
    if predict(coefficients, shift, depth, residual.as_slice(), samples) {
        Ok(())
    } else {
        Err(ReadFault::Refused)
    }
}

/// The same behind a fixed predictor, whose coefficients are constants in a loop of its own.
fn predict_fixed(order: u32, depth: u32, residual: &[i32], samples: &mut [i64]) -> bool
    requires order { order ≤ 4 }
    requires depth { depth ≤ 33 }
    requires some { 0 < depth }
    requires residual { length residual.now + order ≡ length samples.old }
    requires warm { AreSmall 32 (take order samples.old) }
    requires narrow { AreSmall (depth - 1) (take order samples.old) }
    ensures narrow { result ≡ true → AreSmall (depth - 1) samples.new }
    ensures samples { RestoresBehind order (fixed_coefficients order) 0 depth residual.now result samples.old samples.new }
{
    match order {
        0 => restore_in::<0>(fixed_coefficients(0), 0, depth, residual, samples),
        1 => restore_in::<1>(fixed_coefficients(1), 0, depth, residual, samples),
        2 => restore_in::<2>(fixed_coefficients(2), 0, depth, residual, samples),
        3 => restore_in::<3>(fixed_coefficients(3), 0, depth, residual, samples),
        _ => restore_in::<4>(fixed_coefficients(4), 0, depth, residual, samples),
    }
}

/// Reads a residual, and fills in the samples behind those that are there, by a fixed predictor.
fn read_fixed_samples(
    r: &mut BitReader<'_>,
    order: u32,
    depth: u32,
    residual: &mut Vec<i32>,
    samples: &mut [i64],
) -> Result<(), ReadFault>
    requires order { order ≤ 4 }
    requires depth { depth ≤ 33 }
    requires some { 0 < depth }
    requires block { length samples.old < 2 ^ 32 }
    requires fits { order ≤ length samples.old }
    requires warm { AreSmall 32 (take order samples.old) }
    requires narrow { AreSmall (depth - 1) (take order samples.old) }
    ensures narrow { OnOk result (AreSmall (depth - 1) samples.new) }
    ensures read { Fills (predictor_at (fixed_coefficients order) 0 depth (length samples.old) (take order samples.old) r.old) result r.new samples.new }
    ensures short { TellsShort result (short_residual (residual_at (length samples.old) order r.old)) }
    ensures bytes { r.new.bytes ≡ r.old.bytes }
{
    let count = fixed_coefficients(order).len() as u32;
    if let Err(e) = read_block_residual(r, samples.len() as u32, count, residual) {
        return Err(e);
    }
    if predict_fixed(order, depth, residual.as_slice(), samples) {
        Ok(())
    } else {
        Err(ReadFault::Refused)
    }
}

#[inline(always)]
fn fixed_coefficients(order: u32) -> &'static [i64]
    requires { order ≤ 4 }
    ensures values { result.now ≡ fixed_coefficients order }
    ensures length { length result.now ≡ order }
    ensures small { AreSmall 14 result.now }
{
    match order {
        0 => &[],
        1 => &[1],
        2 => &[2, -1],
        3 => &[3, -3, 1],
        _ => &[4, -6, 4, -1],
    }
}

/// A subframe with a fixed predictor.
#[tactic(auto, unfolding(flac_definitions::specs::Subframe::fixed_at))]
pub fn read_fixed(
    r: &mut BitReader<'_>,
    order: u32,
    depth: u32,
    residual: &mut Vec<i32>,
    samples: &mut [i64],
) -> Result<(), ReadFault>
    requires order { order ≤ 4 }
    requires depth { depth ≤ 33 }
    requires some { 0 < depth }
    requires block { length samples.old < 2 ^ 32 }
    ensures narrow { OnOk result (AreSmall (depth - 1) samples.new) }
    ensures read { Fills (fixed_at order depth (length samples.old) r.old) result r.new samples.new }
    ensures short { TellsShort result (short_fixed order depth (length samples.old) r.old) }
    ensures bytes { r.new.bytes ≡ r.old.bytes }
{
    if samples.len() < order as usize {
        return Err(ReadFault::Refused);
    }
    if let Err(e) = read_samples(r, depth, &mut samples[..order as usize]) {
        return Err(e);
    }
    read_fixed_samples(r, order, depth, residual, samples)
}

/// Coefficients and a shift.
fn read_coefficients(r: &mut BitReader<'_>, coefficients: &mut [i64]) -> Result<u32, ReadFault>
    ensures read { FillsWith (coefficients_at (length coefficients.old) r.old) result r.new coefficients.new }
    ensures short { TellsShort result (short_coefficients (length coefficients.old) r.old) }
    ensures shift { IfOk result (λ x. x < 16) }
    ensures small { OnOk result (AreSmall 14 coefficients.new) }
    ensures bytes { r.new.bytes ≡ r.old.bytes }
{
    let precision = match read_bits(r, 4) {
        Ok(x) => x as u32,
        Err(e) => return Err(e),
    };
    let shift = match read_bits(r, 5) {
        Ok(x) => x as u32,
        Err(e) => return Err(e),
    };
    if precision < 15 && shift < 16 {
        match read_samples(r, precision + 1, coefficients) {
            Ok(()) => Ok(shift),
            Err(e) => Err(e),
        }
    } else {
        Err(ReadFault::Refused)
    }
}

/// A subframe with a linear predictor.
#[tactic(auto, unfolding(flac_definitions::specs::Subframe::linear_at))]
pub fn read_linear(
    r: &mut BitReader<'_>,
    order: u32,
    depth: u32,
    residual: &mut Vec<i32>,
    samples: &mut [i64],
) -> Result<(), ReadFault>
    requires order { order ≤ 32 }
    requires depth { depth ≤ 33 }
    requires some { 0 < depth }
    requires block { length samples.old < 2 ^ 32 }
    ensures narrow { OnOk result (AreSmall (depth - 1) samples.new) }
    ensures read { Fills (linear_at order depth (length samples.old) r.old) result r.new samples.new }
    ensures short { TellsShort result (short_linear order depth (length samples.old) r.old) }
    ensures bytes { r.new.bytes ≡ r.old.bytes }
{
    if samples.len() < order as usize {
        return Err(ReadFault::Refused);
    }
    if let Err(e) = read_samples(r, depth, &mut samples[..order as usize]) {
        return Err(e);
    }
    let mut places = [0i64; 32];
    let c = &mut places[..order as usize];
    let shift = match read_coefficients(r, c) {
        Ok(x) => x,
        Err(e) => return Err(e),
    };
    read_predicted_samples(r, c, shift, depth, residual, samples)
}
