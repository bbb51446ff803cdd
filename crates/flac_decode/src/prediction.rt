// Samples from predictions and a residual.
ghost use Rattle.std.specs.Prelude.{◌≡◌, ℕ, ◌+◌, ◌-◌, ◌*◌, ◌^◌, ◌<◌, ◌≤◌, ◌*ℤ◌, ◌+ℤ◌, true, false, pos, length, take, drop, reverse, unsigned_abs, slice_index_or as get_or};
ghost use Rattle.std.specs.Int.{int_shr};
ghost use Rattle.flac_definitions.specs.Prediction.{samples_behind, sum_of_products, fits_depth};
ghost use Rattle.flac_decode.specs.Reading.{RestoresBehind};
ghost use Rattle.flac_decode.specs.Bounds.{AreSmall};

/// Restores the samples behind the first N of `samples`; false where one does not fit its depth.
#[inline(never)]
pub fn restore<const N: usize>(
    coefficients: &[i64],
    shift: u32,
    depth: u32,
    residual: &[i32],
    samples: &mut [i64],
) -> bool
    requires count { N ≤ 32 }
    requires coefficients { AreSmall 14 coefficients.now }
    requires places { length coefficients.now ≡ N }
    requires shift { shift < 16 }
    requires depth { depth ≤ 33 }
    requires some { 0 < depth }
    requires residual { length residual.now + N ≡ length samples.old }
    requires warm { AreSmall 32 (take N samples.old) }
    requires narrow { AreSmall (depth - 1) (take N samples.old) }
    ensures narrow { result ≡ true → AreSmall (depth - 1) samples.new }
    ensures samples { RestoresBehind N coefficients.now shift depth residual.now result samples.old samples.new }
{
    restore_in::<N>(coefficients, shift, depth, residual, samples)
}

/// The same; where it is inlined, the coefficients and the shift may be constants.
#[inline(always)]
pub fn restore_in<const N: usize>(
    coefficients: &[i64],
    shift: u32,
    depth: u32,
    residual: &[i32],
    samples: &mut [i64],
) -> bool
    requires count { N ≤ 32 }
    requires coefficients { AreSmall 14 coefficients.now }
    requires places { length coefficients.now ≡ N }
    requires shift { shift < 16 }
    requires depth { depth ≤ 33 }
    requires some { 0 < depth }
    requires residual { length residual.now + N ≡ length samples.old }
    requires warm { AreSmall 32 (take N samples.old) }
    requires narrow { AreSmall (depth - 1) (take N samples.old) }
    ensures narrow { result ≡ true → AreSmall (depth - 1) samples.new }
    ensures samples { RestoresBehind N coefficients.now shift depth residual.now result samples.old samples.new }
{
    // As a power and not as a shift, which would be done again for each sample.
    let wide = 2u64.pow(depth);
    // The two samples just computed, which need not be read back.
    let mut last = if N > 0 { samples[N - 1] } else { 0 };
    let mut before = if N > 1 { samples[N - 2] } else { 0 };
    for i in N..samples.len() {
        let sum = sum_of_products::<N>(coefficients, samples, i, last, before);
        let sample = sample_of(sum, shift, residual[i - N]);
        if lift(depth, sample) >= wide {
            return false;
        }
        samples[i] = sample;
        before = last;
        last = sample;
    }
    true
}

/// The same, of any number of coefficients.
#[inline(never)]
pub fn restore_any_order(
    coefficients: &[i64],
    shift: u32,
    depth: u32,
    residual: &[i32],
    samples: &mut [i64],
) -> bool
    requires count { length coefficients.now ≤ 32 }
    requires coefficients { AreSmall 14 coefficients.now }
    requires shift { shift < 16 }
    requires depth { depth ≤ 33 }
    requires some { 0 < depth }
    requires residual { length residual.now + length coefficients.now ≡ length samples.old }
    requires warm { AreSmall 32 (take (length coefficients.now) samples.old) }
    requires narrow { AreSmall (depth - 1) (take (length coefficients.now) samples.old) }
    ensures narrow { result ≡ true → AreSmall (depth - 1) samples.new }
    ensures samples { RestoresBehind (length coefficients.now) coefficients.now shift depth residual.now result samples.old samples.new }
{
    for i in coefficients.len()..samples.len() {
        let sum = sum_of_any_products(coefficients, samples, i);
        let sample = sample_of(sum, shift, residual[i - coefficients.len()]);
        if !fits_depth(depth, sample) {
            return false;
        }
        samples[i] = sample;
    }
    true
}

/// A prediction plus a residual.
#[inline(always)]
fn sample_of(sum: i64, shift: u32, residual: i32) -> i64
    requires sum { unsigned_abs sum ≤ 2 ^ 51 }
    requires shift { shift < 16 }
    ensures sample { result ≡ int_shr sum shift +ℤ residual }
    ensures small { unsigned_abs result ≤ 2 ^ 60 }
{
    (sum >> shift) + residual as i64
}

/// Whether a sample is one of so many bits.
#[inline(always)]
pub fn fits_depth(depth: u32, sample: i64) -> bool
    requires some { 0 < depth }
    requires depth { depth ≤ 33 }
    ensures fits { result ≡ fits_depth depth sample }
    ensures small { result ≡ true → unsigned_abs sample ≤ 2 ^ 32 }
    ensures narrow { result ≡ true → unsigned_abs sample ≤ 2 ^ (depth - 1) }
{
    let high = 1i64 << (depth - 1);
    -high <= sample && sample < high
}

/// A sample plus half of what its depth can tell: below 2^depth exactly where it fits. So a union of the bits of many tells
/// whether all fit, and a loop need not decide for each.
#[inline(always)]
pub fn lift(depth: u32, sample: i64) -> u64
    requires some { 0 < depth }
    requires depth { depth ≤ 33 }
    requires sample { unsigned_abs sample ≤ 2 ^ 60 }
    ensures fits { result < 2 ^ depth → fits_depth depth sample ≡ true }
    ensures small { result < 2 ^ depth → unsigned_abs sample ≤ 2 ^ 32 }
    ensures narrow { result < 2 ^ depth → unsigned_abs sample ≤ 2 ^ (depth - 1) }
    ensures bad { 2 ^ depth ≤ result → fits_depth depth sample ≡ false }
{
    (sample + (1 << (depth - 1))).cast_unsigned()
}

/// The sum of the products of coefficients and the samples before a place, from the last one back. The product of the
/// last sample is added last, since that sample was just computed.
#[inline(always)]
fn sum_of_products<const N: usize>(
    coefficients: &[i64],
    samples: &[i64],
    place: usize,
    last: i64,
    before: i64,
) -> i64
    requires count { N ≤ 32 }
    requires last { 0 < N → last ≡ get_or samples.now (place - 1) (pos 0) }
    requires before { 1 < N → before ≡ get_or samples.now (place - 2) (pos 0) }
    requires coefficients { AreSmall 14 coefficients.now }
    requires places { length coefficients.now ≡ N }
    requires there { place ≤ length samples.now }
    requires behind { N ≤ place }
    requires samples { AreSmall 32 (take place samples.now) }
    ensures sum { result ≡ sum_of_products coefficients.now (reverse (take place samples.now)) }
    ensures small { unsigned_abs result ≤ 2 ^ 51 }
{
    let mut sum = 0i64;
    for j in 0..N {
        let k = N - 1 - j;
        let sample = sample_before(samples, place, k, last, before);
        sum += product(coefficients[k], sample);
    }
    sum
}

/// The sample before a place, with so many between them; the last two are at hand.
#[inline(always)]
fn sample_before(samples: &[i64], place: usize, between: usize, last: i64, before: i64) -> i64
    requires behind { between < place }
    requires there { place ≤ length samples.now }
    requires last { between ≡ 0 → last ≡ get_or samples.now (place - 1) (pos 0) }
    requires before { between ≡ 1 → before ≡ get_or samples.now (place - 2) (pos 0) }
    ensures { result ≡ get_or samples.now (place - 1 - between) (pos 0) }
{
    if between == 0 {
        last
    } else if between == 1 {
        before
    } else {
        samples[place - 1 - between]
    }
}

/// The sum of the products of coefficients and the samples before a place, from the last one back. The product of the
/// last sample is added last, since that sample was just computed.
#[inline(always)]
fn sum_of_any_products(coefficients: &[i64], samples: &[i64], place: usize) -> i64
    requires count { length coefficients.now ≤ 32 }
    requires coefficients { AreSmall 14 coefficients.now }
    requires there { place ≤ length samples.now }
    requires behind { length coefficients.now ≤ place }
    requires samples { AreSmall 32 (take place samples.now) }
    ensures sum { result ≡ sum_of_products coefficients.now (reverse (take place samples.now)) }
    ensures small { unsigned_abs result ≤ 2 ^ 51 }
{
    let mut sum = 0i64;
    for j in 0..coefficients.len() {
        let k = coefficients.len() - 1 - j;
        sum += product(coefficients[k], samples[place - 1 - k]);
    }
    sum
}

#[inline(always)]
fn product(coefficient: i64, sample: i64) -> i64
    requires coefficient { unsigned_abs coefficient ≤ 2 ^ 14 }
    requires sample { unsigned_abs sample ≤ 2 ^ 32 }
    ensures product { result ≡ coefficient *ℤ sample }
    ensures small { unsigned_abs result ≤ 2 ^ 46 }
{
    coefficient * sample
}
