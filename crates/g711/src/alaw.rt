// A-law.
ghost use Rattle.std.specs.Prelude.{◌≡◌, ◌≤◌, ◌<◌, ◌^◌, map};
ghost use Rattle.std.specs.List.{range_with_len};
ghost use Rattle.codec_definitions.specs.G711.{exponent_of, mantissa_of, alaw_low, alaw_high, alaw_value, alaw_code, alaw_magnitude, IsAlawCode};

use crate::segment::segment_of;
use crate::tables::ALAW_VALUES;

/// The value that an A-law code stands for.
#[inline(always)]
pub fn alaw_decode(code: u8) -> i16
    ensures { result ≡ alaw_value code }
{
    values()[code as usize]
}

#[inline(always)]
fn values() -> &'static [i16; 256]
    ensures { result.now ≡ map alaw_value (range_with_len 0 256) }
{
    &ALAW_VALUES
}

/// The A-law code of a value: that of its sign whose interval holds its magnitude.
#[inline(always)]
pub fn alaw_encode(value: i16) -> u8
    ensures code { result ≡ alaw_code value }
    ensures interval { IsAlawCode value result }
{
    let bits = interval_of(magnitude_of(value));
    if value < 0 {
        bits ^ 0x55
    } else {
        (bits + 128) ^ 0x55
    }
}

/// A value's magnitude: of a negative one, one less than how far it is below 0.
#[inline(always)]
fn magnitude_of(value: i16) -> u16
    ensures value { result ≡ alaw_magnitude value }
    ensures bound { result < 2 ^ 15 }
{
    let magnitude = if value < 0 { !value } else { value };
    magnitude as u16
}

/// The seven bits of a code that are no sign, for a magnitude.
#[inline(always)]
fn interval_of(magnitude: u16) -> u8
    requires { magnitude < 2 ^ 15 }
    ensures bits { result < 128 }
    ensures low { alaw_low (exponent_of result) (mantissa_of result) ≤ magnitude }
    ensures high { magnitude < alaw_high (exponent_of result) (mantissa_of result) }
{
    if magnitude < 256 {
        (magnitude >> 4) as u8
    } else {
        segment_of(magnitude)
    }
}
