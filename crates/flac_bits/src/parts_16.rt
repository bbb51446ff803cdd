// A byte's part of a CRC-16, by how many bytes stand behind it: the sum of that byte and as many bytes 0.
ghost use Rattle.std.specs.Prelude.{◌≡◌, map};
ghost use Rattle.std.specs.List.{range_with_len};
ghost use Rattle.flac_bits.specs.ByteSums.{after_zeros};

use crate::tables_16::{PARTS_0, PARTS_1, PARTS_2, PARTS_3, PARTS_4, PARTS_5, PARTS_6, PARTS_7};

#[inline(always)]
fn table_0() -> &'static [u16; 256]
    ensures { result.now ≡ map (after_zeros 16 0x8005 16) (range_with_len 0 256) }
{
    &PARTS_0
}

/// The part of a byte with 0 bytes behind it.
#[inline(always)]
pub fn part_0(byte: u8) -> u16
    ensures { result ≡ after_zeros 16 0x8005 16 byte }
{
    table_0()[byte as usize]
}

#[inline(always)]
fn table_1() -> &'static [u16; 256]
    ensures { result.now ≡ map (after_zeros 16 0x8005 24) (range_with_len 0 256) }
{
    &PARTS_1
}

/// The part of a byte with 1 bytes behind it.
#[inline(always)]
pub fn part_1(byte: u8) -> u16
    ensures { result ≡ after_zeros 16 0x8005 24 byte }
{
    table_1()[byte as usize]
}

#[inline(always)]
fn table_2() -> &'static [u16; 256]
    ensures { result.now ≡ map (after_zeros 16 0x8005 32) (range_with_len 0 256) }
{
    &PARTS_2
}

/// The part of a byte with 2 bytes behind it.
#[inline(always)]
pub fn part_2(byte: u8) -> u16
    ensures { result ≡ after_zeros 16 0x8005 32 byte }
{
    table_2()[byte as usize]
}

#[inline(always)]
fn table_3() -> &'static [u16; 256]
    ensures { result.now ≡ map (after_zeros 16 0x8005 40) (range_with_len 0 256) }
{
    &PARTS_3
}

/// The part of a byte with 3 bytes behind it.
#[inline(always)]
pub fn part_3(byte: u8) -> u16
    ensures { result ≡ after_zeros 16 0x8005 40 byte }
{
    table_3()[byte as usize]
}

#[inline(always)]
fn table_4() -> &'static [u16; 256]
    ensures { result.now ≡ map (after_zeros 16 0x8005 48) (range_with_len 0 256) }
{
    &PARTS_4
}

/// The part of a byte with 4 bytes behind it.
#[inline(always)]
pub fn part_4(byte: u8) -> u16
    ensures { result ≡ after_zeros 16 0x8005 48 byte }
{
    table_4()[byte as usize]
}

#[inline(always)]
fn table_5() -> &'static [u16; 256]
    ensures { result.now ≡ map (after_zeros 16 0x8005 56) (range_with_len 0 256) }
{
    &PARTS_5
}

/// The part of a byte with 5 bytes behind it.
#[inline(always)]
pub fn part_5(byte: u8) -> u16
    ensures { result ≡ after_zeros 16 0x8005 56 byte }
{
    table_5()[byte as usize]
}

#[inline(always)]
fn table_6() -> &'static [u16; 256]
    ensures { result.now ≡ map (after_zeros 16 0x8005 64) (range_with_len 0 256) }
{
    &PARTS_6
}

/// The part of a byte with 6 bytes behind it.
#[inline(always)]
pub fn part_6(byte: u8) -> u16
    ensures { result ≡ after_zeros 16 0x8005 64 byte }
{
    table_6()[byte as usize]
}

#[inline(always)]
fn table_7() -> &'static [u16; 256]
    ensures { result.now ≡ map (after_zeros 16 0x8005 72) (range_with_len 0 256) }
{
    &PARTS_7
}

/// The part of a byte with 7 bytes behind it.
#[inline(always)]
pub fn part_7(byte: u8) -> u16
    ensures { result ≡ after_zeros 16 0x8005 72 byte }
{
    table_7()[byte as usize]
}
