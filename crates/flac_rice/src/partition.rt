// Partitions of a residual.
ghost use Rattle.std.specs.Prelude.{◌≡◌, ◌+◌, ◌-◌, ◌*◌, ◌/◌, ◌%◌, ◌^◌, ◌<◌, ◌≤◌, length, IfOk};
ghost use Rattle.flac_definitions.specs.Bits.{Place};
ghost use Rattle.flac_rice.specs.Reading.{place_in, Fills};
ghost use Rattle.flac_definitions.specs.Residual.{each_at, plain_at, signed_number, escaped_partition_at, partition_at, partitions_at, all_partitions_at};

use crate::value::values_into;
use flac_bits::number_at;
use flac_definitions::ResidualFault;

/// The values of all partitions, the first of which has fewer.
pub fn all_partitions_into(
    bytes: &[u8],
    at: u64,
    size: u32,
    first: usize,
    each: usize,
    rest: u32,
    out: &mut [i32],
) -> Result<u64, ResidualFault>
    requires few { length bytes.now < 2 ^ 61 }
    requires there { at ≤ 8 * length bytes.now }
    requires size { size ≤ 5 }
    requires places { length out.old ≡ first + rest * each }
    ensures filled { Fills (all_partitions_at size first each rest (place_in bytes.now at)) result bytes.now out.new }
    ensures there { IfOk result (λ at. at ≤ 8 * length bytes.now) }
{
    let mut here = match partition_into(bytes, at, size, &mut out[..first]) {
        Ok(at) => at,
        Err(e) => return Err(e),
    };
    let mut done = first;
    for _i in 0..rest {
        here = match partition_into(bytes, here, size, &mut out[done..done + each]) {
            Ok(at) => at,
            Err(e) => return Err(e),
        };
        done += each;
    }
    Ok(here)
}

/// The values of one partition.
fn partition_into(bytes: &[u8], at: u64, size: u32, out: &mut [i32]) -> Result<u64, ResidualFault>
    requires few { length bytes.now < 2 ^ 61 }
    requires there { at ≤ 8 * length bytes.now }
    requires size { size ≤ 5 }
    ensures filled { Fills (partition_at size (length out.old) (place_in bytes.now at)) result bytes.now out.new }
    ensures there { IfOk result (λ at. at ≤ 8 * length bytes.now) }
{
    if bytes.len() as u64 * 8 - at < size as u64 {
        return Err(ResidualFault::Short { bit: at });
    }
    let parameter = number_at(bytes, at, size) as u32;
    if parameter == (1 << size) - 1 {
        escaped_partition_into(bytes, at + size as u64, out)
    } else {
        values_into(bytes, at + size as u64, parameter, out)
    }
}

/// The plain values of one partition.
fn escaped_partition_into(bytes: &[u8], at: u64, out: &mut [i32]) -> Result<u64, ResidualFault>
    requires few { length bytes.now < 2 ^ 61 }
    requires there { at ≤ 8 * length bytes.now }
    ensures filled { Fills (escaped_partition_at (length out.old) (place_in bytes.now at)) result bytes.now out.new }
    ensures there { IfOk result (λ at. at ≤ 8 * length bytes.now) }
{
    if bytes.len() as u64 * 8 - at < 5 {
        return Err(ResidualFault::Short { bit: at });
    }
    let width = number_at(bytes, at, 5) as u32;
    plain_values_into(bytes, at + 5, width, out)
}

/// Plain values of so many bits.
fn plain_values_into(
    bytes: &[u8],
    at: u64,
    width: u32,
    out: &mut [i32],
) -> Result<u64, ResidualFault>
    requires few { length bytes.now < 2 ^ 61 }
    requires there { at ≤ 8 * length bytes.now }
    requires width { width < 32 }
    ensures filled { Fills (each_at (plain_at width) (length out.old) (place_in bytes.now at)) result bytes.now out.new }
    ensures there { IfOk result (λ at. at ≤ 8 * length bytes.now) }
{
    let mut here = at;
    for place in out.iter_mut() {
        if bytes.len() as u64 * 8 - here < width as u64 {
            return Err(ResidualFault::Short { bit: here });
        }
        *place = signed_number(width, number_at(bytes, here, width));
        here += width as u64;
    }
    Ok(here)
}

/// A number in two's complement.
#[inline(always)]
fn signed_number(width: u32, number: u64) -> i32
    requires width { width < 32 }
    requires number { number < 2 ^ width }
    ensures { result ≡ signed_number width number }
{
    if width == 0 {
        0
    } else if number < 1 << (width - 1) {
        number as i32
    } else {
        (number as i64 - (1 << width)) as i32
    }
}
