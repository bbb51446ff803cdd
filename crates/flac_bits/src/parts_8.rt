// A byte's part of a CRC-8, by how many bytes stand behind it: the sum of that byte and as many bytes 0.
ghost use Rattle.std.specs.Prelude.{◌≡◌, map};
ghost use Rattle.std.specs.List.{range_with_len};
ghost use Rattle.flac_bits.specs.ByteSums.{after_zeros};

use crate::tables_8::{PARTS_0, PARTS_1, PARTS_2, PARTS_3};

#[inline(always)]
fn table_0() -> &'static [u8; 256]
    ensures { result.now ≡ map (after_zeros 8 0x07 8) (range_with_len 0 256) }
{
    &PARTS_0
}

/// The part of a byte with 0 bytes behind it.
#[inline(always)]
pub fn part_0(byte: u8) -> u8
    ensures { result ≡ after_zeros 8 0x07 8 byte }
{
    table_0()[byte as usize]
}

#[inline(always)]
fn table_1() -> &'static [u8; 256]
    ensures { result.now ≡ map (after_zeros 8 0x07 16) (range_with_len 0 256) }
{
    &PARTS_1
}

/// The part of a byte with 1 bytes behind it.
#[inline(always)]
pub fn part_1(byte: u8) -> u8
    ensures { result ≡ after_zeros 8 0x07 16 byte }
{
    table_1()[byte as usize]
}

#[inline(always)]
fn table_2() -> &'static [u8; 256]
    ensures { result.now ≡ map (after_zeros 8 0x07 24) (range_with_len 0 256) }
{
    &PARTS_2
}

/// The part of a byte with 2 bytes behind it.
#[inline(always)]
pub fn part_2(byte: u8) -> u8
    ensures { result ≡ after_zeros 8 0x07 24 byte }
{
    table_2()[byte as usize]
}

#[inline(always)]
fn table_3() -> &'static [u8; 256]
    ensures { result.now ≡ map (after_zeros 8 0x07 32) (range_with_len 0 256) }
{
    &PARTS_3
}

/// The part of a byte with 3 bytes behind it.
#[inline(always)]
pub fn part_3(byte: u8) -> u8
    ensures { result ≡ after_zeros 8 0x07 32 byte }
{
    table_3()[byte as usize]
}
