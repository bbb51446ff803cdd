// The sums that guard FLAC's headers and frames, by tables.
ghost use Rattle.std.specs.Prelude.{◌≡◌, [], ◌∷◌};
ghost use Rattle.flac_definitions.specs.Sums.{crc8_of, crc16_of};
ghost use Rattle.flac_bits.specs.ByteSums.{after_byte, after_bytes};

use crate::{parts_8, parts_16};

/// The CRC-8 of a frame header's bytes (RFC 9639, section 9.1.8).
pub fn crc8(bytes: &[u8]) -> u8
    ensures { result ≡ crc8_of bytes.now }
{
    let mut sum = 0;
    let mut rest = bytes;
    while let [a, b, c, d, more @ ..] = rest {
        sum = next_four(sum, *a, *b, *c, *d);
        rest = more;
    }
    few_8(sum, rest)
}

/// The CRC-16 of a frame's bytes (RFC 9639, section 9.3).
pub fn crc16(bytes: &[u8]) -> u16
    ensures { result ≡ crc16_of bytes.now }
{
    let mut sum = 0;
    let mut rest = bytes;
    while let [a, b, c, d, e, f, g, h, more @ ..] = rest {
        sum = next_eight(sum, *a, *b, *c, *d, *e, *f, *g, *h);
        rest = more;
    }
    few_16(sum, rest)
}

/// A CRC-8 with more bytes behind it, one by one.
fn few_8(before: u8, bytes: &[u8]) -> u8
    ensures { result ≡ after_bytes 8 0x07 before bytes.now }
{
    let mut sum = before;
    for byte in bytes {
        sum = next_8(sum, *byte);
    }
    sum
}

/// A CRC-16 with more bytes behind it, one by one.
fn few_16(before: u16, bytes: &[u8]) -> u16
    ensures { result ≡ after_bytes 16 0x8005 before bytes.now }
{
    let mut sum = before;
    for byte in bytes {
        sum = next_16(sum, *byte);
    }
    sum
}

/// A CRC-8 with four more bytes behind it: it joins the first of them.
#[inline(always)]
fn next_four(sum: u8, a: u8, b: u8, c: u8, d: u8) -> u8
    ensures { result ≡ after_bytes 8 0x07 sum (a ∷ b ∷ c ∷ d ∷ []) }
{
    parts_8::part_3(sum ^ a) ^ (parts_8::part_2(b) ^ (parts_8::part_1(c) ^ parts_8::part_0(d)))
}

/// A CRC-16 with eight more bytes behind it: its own two bytes join the first two of them.
#[inline(always)]
fn next_eight(sum: u16, a: u8, b: u8, c: u8, d: u8, e: u8, f: u8, g: u8, h: u8) -> u16
    ensures { result ≡ after_bytes 16 0x8005 sum (a ∷ b ∷ c ∷ d ∷ e ∷ f ∷ g ∷ h ∷ []) }
{
    parts_16::part_7((sum >> 8) as u8 ^ a)
        ^ (parts_16::part_6((sum & 0xff) as u8 ^ b)
            ^ (parts_16::part_5(c)
                ^ (parts_16::part_4(d)
                    ^ (parts_16::part_3(e)
                        ^ (parts_16::part_2(f) ^ (parts_16::part_1(g) ^ parts_16::part_0(h)))))))
}

/// A CRC-8 with one more byte behind it.
#[inline(always)]
fn next_8(sum: u8, byte: u8) -> u8
    ensures { result ≡ after_byte 8 0x07 sum byte }
{
    parts_8::part_0(sum ^ byte)
}

/// A CRC-16 with one more byte behind it.
#[inline(always)]
fn next_16(sum: u16, byte: u8) -> u16
    ensures { result ≡ after_byte 16 0x8005 sum byte }
{
    ((sum & 0xff) << 8) ^ parts_16::part_0((sum >> 8) as u8 ^ byte)
}
