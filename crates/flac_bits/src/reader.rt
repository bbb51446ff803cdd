// A reader of bits.
ghost use Rattle.std.specs.Prelude.{◌≡◌, ℕ, ◌+◌, ◌-◌, ◌*◌, ◌/◌, ◌%◌, ◌^◌, ◌<◌, ◌≤◌, length, take, drop, IfSome, IfOk};
ghost use Rattle.flac_definitions.specs.Bits.{bits_in, number_of, ahead, left, forward, number_at, zeros_at, zeros_before};
ghost use Rattle.flac_bits.specs.Reader.{Takes};

use crate::window::{Window, front, move_up, refill};
use std::marker::Model;

/// Too few bits are left, or no 1 is left.
#[derive(Clone, Copy, Debug, PartialEq, Eq)]
pub struct End;

/// Bytes, how many of their bits were read, and the next bits in a word.
#[derive(Drop)]
pub struct BitReader<'a> {
    bytes: &'a [u8],
    at: u64,
    window: Window,
}

impl<'a> Model for BitReader<'a> {
    ghost use Rattle.std.specs.Prelude.{ℕ, ◌*◌, ◌^◌, ◌<◌, ◌≤◌, length};
    ghost use Rattle.flac_definitions.specs.Bits.{Place};
    ghost use Rattle.flac_bits.specs.Window.{IsWindow};

    ghost Value = { Place };

    ghost view = { λ r. record { bytes = r.bytes.now; at = r.at } };

    ghost invariant = { λ r.
        (length r.bytes.now < 2 ^ 61) × (r.at ≤ 8 * length r.bytes.now) × IsWindow r.bytes.now r.at r.window.word r.window.valid };
}

impl<'a> BitReader<'a> {
    /// A reader that stands before the first bit.
    pub fn new(bytes: &'a [u8]) -> BitReader<'a>
        requires { length bytes.now < 2 ^ 61 }
        ensures { result ≡ record { bytes = bytes.now; at = 0 } }
    {
        BitReader {
            bytes,
            at: 0,
            window: Window { word: 0, valid: 0 },
        }
    }

    /// How many bits were read.
    pub fn at(&self) -> u64
        ensures { result ≡ self.now.at }
    {
        self.at
    }

    /// All its bytes.
    pub fn bytes(&self) -> &'a [u8]
        ensures bytes { result.now ≡ self.now.bytes }
        ensures few { length result.now < 2 ^ 61 }
        ensures there { self.now.at ≤ 8 * length result.now }
    {
        let _at = self.at;
        self.bytes
    }

    /// Goes on to a later place.
    pub fn move_to(&mut self, at: u64)
        requires there { at ≤ 8 * length self.old.bytes }
        ensures { self.new ≡ record { bytes = self.old.bytes; at = at } }
    {
        self.at = at;
        self.window = Window { word: 0, valid: 0 };
    }

    /// The number of the next bits.
    pub fn take(&mut self, n: u32) -> Result<u64, End>
        requires { n ≤ 64 }
        ensures read { Takes (number_at n self.old) result self.old self.new }
        ensures fits { IfOk result (λ v. v < 2 ^ n) }
    {
        let window = refill(self.bytes, self.at, self.window, n);
        if n <= window.valid {
            self.at += n as u64;
            self.window = Window {
                word: move_up(window.word, n),
                valid: window.valid - n,
            };
            return Ok(front(window.word, n));
        }
        if self.bytes.len() as u64 * 8 - self.at < n as u64 {
            return Err(End);
        }
        let number = number_at(self.bytes, self.at, n);
        self.at += n as u64;
        self.window = Window { word: 0, valid: 0 };
        Ok(number)
    }

    /// The number of zeros before the next 1, which is read too.
    pub fn unary(&mut self) -> Result<u64, End>
        ensures read { Takes (zeros_at self.old) result self.old self.new }
        ensures fits { IfOk result (λ n. n < 2 ^ 64 - 1) }
    {
        let wanted = self.window.word.leading_zeros() + 1;
        let window = refill(self.bytes, self.at, self.window, wanted);
        let zeros = window.word.leading_zeros();
        if zeros < window.valid {
            self.at += zeros as u64 + 1;
            self.window = Window {
                word: move_up(window.word, zeros + 1),
                valid: window.valid - (zeros + 1),
            };
            return Ok(zeros as u64);
        }
        match zeros_from(self.bytes, self.at) {
            Some(n) => {
                self.at += n + 1;
                self.window = Window { word: 0, valid: 0 };
                Ok(n)
            }
            None => Err(End),
        }
    }
}

/// The number of zeros before the next 1.
pub fn zeros_from(bytes: &[u8], at: u64) -> Option<u64>
    requires few { length bytes.now < 2 ^ 61 }
    requires there { at ≤ 8 * length bytes.now }
    ensures zeros { result ≡ zeros_before (drop at (bits_in bytes.now)) }
    ensures there { IfSome result (λ n. at + n < 8 * length bytes.now) }
{
    for place in at..bytes.len() as u64 * 8 {
        if bit_at(bytes, place) == 1 {
            return Some(place - at);
        }
    }
    None
}

/// The number of some bits.
pub fn number_at(bytes: &[u8], at: u64, n: u32) -> u64
    requires size { n ≤ 64 }
    requires there { at + n ≤ 8 * length bytes.now }
    requires few { length bytes.now < 2 ^ 61 }
    ensures number { result ≡ number_of (take n (drop at (bits_in bytes.now))) }
    ensures fits { result < 2 ^ n }
{
    let first = (at / 8) as usize;
    let skipped = (at % 8) as u32;
    if n > 0 && n <= 56 && first + 8 <= bytes.len() {
        field_of(word_at(bytes, first), skipped, n)
    } else {
        slow_number_at(bytes, at, n)
    }
}

/// The number of bits of a word.
#[inline(always)]
fn field_of(word: u64, skipped: u32, n: u32) -> u64
    requires some { 0 < n }
    requires there { skipped + n < 64 }
    ensures { result ≡ word / 2 ^ (64 - skipped - n) % 2 ^ n }
{
    (word >> (64 - skipped - n)) & ((1 << n) - 1)
}

/// The number of eight bytes.
#[inline(always)]
pub fn word_at(bytes: &[u8], first: usize) -> u64
    requires { first + 8 ≤ length bytes.now }
    ensures { result ≡ number_of (bits_in (take 8 (drop first bytes.now))) }
{
    u64::from_be_bytes([
        bytes[first],
        bytes[first + 1],
        bytes[first + 2],
        bytes[first + 3],
        bytes[first + 4],
        bytes[first + 5],
        bytes[first + 6],
        bytes[first + 7],
    ])
}

/// The same, bit by bit.
#[inline(never)]
fn slow_number_at(bytes: &[u8], at: u64, n: u32) -> u64
    requires size { n ≤ 64 }
    requires there { at + n ≤ 8 * length bytes.now }
    requires few { length bytes.now < 2 ^ 61 }
    ensures number { result ≡ number_of (take n (drop at (bits_in bytes.now))) }
    ensures fits { result < 2 ^ n }
{
    let mut number = 0;
    for i in 0..n {
        number = 2 * number + bit_at(bytes, at + i as u64);
    }
    number
}

/// One bit.
#[inline(always)]
fn bit_at(bytes: &[u8], at: u64) -> u64
    requires { at < 8 * length bytes.now }
    ensures bit { result < 2 }
    ensures number { result ≡ number_of (take 1 (drop at (bits_in bytes.now))) }
{
    (bytes[(at / 8) as usize] >> (7 - at % 8) as u32 & 1) as u64
}
