// mu-law.
ghost use Rattle.std.specs.Prelude.{◌≡◌, ◌≤◌, map};
ghost use Rattle.std.specs.List.{range_with_len};
ghost use Rattle.codec_definitions.specs.G711.{ulaw_magnitude, ulaw_value, ulaw_code, IsUlawCode};

use crate::segment::segment_of;
use crate::tables::ULAW_VALUES;

/// The value that a mu-law code stands for.
#[inline(always)]
pub fn ulaw_decode(code: u8) -> i16
    ensures { result ≡ ulaw_value code }
{
    values()[code as usize]
}

#[inline(always)]
fn values() -> &'static [i16; 256]
    ensures { result.now ≡ map ulaw_value (range_with_len 0 256) }
{
    &ULAW_VALUES
}

/// The mu-law code of a value: that of its sign whose interval holds its magnitude.
#[inline(always)]
pub fn ulaw_encode(value: i16) -> u8
    ensures code { result ≡ ulaw_code value }
    ensures interval { IsUlawCode value result }
{
    let bits = segment_of(magnitude_of(value) + 132);
    if value < 0 { 127 - bits } else { 255 - bits }
}

/// A value's magnitude, clipped to the greatest that an interval holds.
#[inline(always)]
fn magnitude_of(value: i16) -> u16
    ensures value { result ≡ ulaw_magnitude value }
    ensures clipped { result ≤ 32635 }
{
    value.unsigned_abs().min(32635)
}
