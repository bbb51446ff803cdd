// What both laws have in common: an exponent and a mantissa, by the top bit and the four bits below it.
ghost use Rattle.std.specs.Prelude.{◌≡◌, ◌≤◌, ◌<◌, ◌^◌, ◌+◌, ◌*◌, true};
ghost use Rattle.codec_definitions.specs.G711.{exponent_of, mantissa_of};
ghost use Rattle.g711.specs.Segments.{IsInSegment};
ghost use Rattle.g711.specs.Tables.{are_top_bits};

use crate::tables::TOP_BITS;

/// The seven bits of a code that are no sign, for a magnitude of 8 to 15 bits.
#[inline(always)]
pub fn segment_of(magnitude: u16) -> u8
    requires low { 128 ≤ magnitude }
    requires high { magnitude < 2 ^ 15 }
    ensures bits { result < 128 }
    ensures segment { IsInSegment (exponent_of result) (mantissa_of result) magnitude }
{
    let exponent = exponent_of(magnitude);
    let mantissa = (magnitude >> (exponent + 3)) - 16;
    exponent * 16 + mantissa as u8
}

/// The place of a magnitude's top bit, counted from bit 7.
#[inline(always)]
fn exponent_of(magnitude: u16) -> u8
    requires least { 128 ≤ magnitude }
    requires most { magnitude < 2 ^ 15 }
    ensures bound { result ≤ 7 }
    ensures low { 2 ^ (result + 7) ≤ magnitude }
    ensures high { magnitude < 2 * 2 ^ (result + 7) }
{
    top_bits()[(magnitude >> 7) as usize]
}

#[inline(always)]
fn top_bits() -> &'static [u8; 256]
    ensures { are_top_bits 0 result.now ≡ true }
{
    &TOP_BITS
}
