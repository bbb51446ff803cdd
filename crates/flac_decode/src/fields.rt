// Plain samples.
ghost use Rattle.std.specs.Prelude.{◌≡◌, ◌+◌, ◌-◌, ◌*◌, ◌^◌, ◌<◌, ◌≤◌, length, take, IfOk, OnOk, unsigned_abs};
ghost use Rattle.flac_definitions.specs.Residual.{signed_number};
ghost use Rattle.flac_decode.specs.Bounds.{AreSmall};
ghost use Rattle.flac_decode.specs.Reading.{Gives, Fills, TellsShort};
ghost use Rattle.flac_decode.specs.Shortness.{is_missing};
ghost use Rattle.flac_definitions.specs.Subframe.{signed_at, samples_at};
ghost use Rattle.flac_definitions.specs.Bits.{number_at};

use crate::fault::ReadFault;
use flac_bits::BitReader;

/// The number of the next bits.
pub fn read_bits(r: &mut BitReader<'_>, n: u32) -> Result<u64, ReadFault>
    requires { n ≤ 64 }
    ensures read { Gives (number_at n r.old) result r.new }
    ensures short { TellsShort result (is_missing (number_at n r.old)) }
    ensures bytes { r.new.bytes ≡ r.old.bytes }
    ensures fits { IfOk result (λ x. x < 2 ^ n) }
{
    match r.take(n) {
        Ok(x) => Ok(x),
        Err(_) => Err(ReadFault::Short),
    }
}

/// A number in two's complement.
#[inline(always)]
fn signed_number(size: u32, number: u64) -> i64
    requires some { 0 < size }
    requires size { size ≤ 33 }
    requires number { number < 2 ^ size }
    ensures value { result ≡ signed_number size number }
    ensures small { unsigned_abs result ≤ 2 ^ (size - 1) }
{
    if number < 1 << (size - 1) {
        number as i64
    } else {
        number as i64 - (1 << size)
    }
}

/// The next bits as a number in two's complement.
pub fn read_signed(r: &mut BitReader<'_>, size: u32) -> Result<i64, ReadFault>
    requires some { 0 < size }
    requires size { size ≤ 33 }
    ensures read { Gives (signed_at size r.old) result r.new }
    ensures short { TellsShort result (is_missing (signed_at size r.old)) }
    ensures bytes { r.new.bytes ≡ r.old.bytes }
    ensures small { IfOk result (λ x. unsigned_abs x ≤ 2 ^ (size - 1)) }
{
    match read_bits(r, size) {
        Ok(x) => Ok(signed_number(size, x)),
        Err(e) => Err(e),
    }
}

/// As many samples as there are places.
pub fn read_samples(r: &mut BitReader<'_>, depth: u32, samples: &mut [i64]) -> Result<(), ReadFault>
    requires some { 0 < depth }
    requires depth { depth ≤ 33 }
    ensures read { Fills (samples_at depth (length samples.old) r.old) result r.new samples.new }
    ensures short { TellsShort result (is_missing (samples_at depth (length samples.old) r.old)) }
    ensures bytes { r.new.bytes ≡ r.old.bytes }
    ensures small { OnOk result (AreSmall (depth - 1) samples.new) }
{
    for place in samples.iter_mut() {
        *place = match read_signed(r, depth) {
            Ok(x) => x,
            Err(e) => return Err(e),
        };
    }
    Ok(())
}
