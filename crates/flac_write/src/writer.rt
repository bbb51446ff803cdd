// Bits, written in order.
ghost use Rattle.std.specs.Prelude.{◌≡◌, ◌<◌, ◌≤◌, ◌+◌, ◌-◌, ◌*◌, ◌/◌, ◌%◌, ◌^◌, ◌++◌, [], List, ℕ, Bool, length, OnOk, OnErr};
ghost use Rattle.std.specs.Vec.{vec_len, vec_capacity};
ghost use Rattle.flac_definitions.specs.Bits.{bits_of, bits_in, bits_to_byte};
ghost use Rattle.flac_definitions.specs.Sums.{bits_sum};
ghost use Rattle.flac_write.specs.Writer.{written, IsBegun, IsPending};

use flac_bits::{crc8, crc16};
use std::alloc::Global;
use std::marker::Model;
use wc_base::NoMemory;

/// Bits that were written, the most significant of each number first (RFC 9639, section 5). Seen by contracts as these
/// bits.
#[derive(Drop)]
pub struct BitWriter {
    // Whole bytes, and behind them `used` bits, which are the number `last`. Where there are some, there is room for
    // a word behind the bytes, so that `pad` and `into_bytes` need none.
    bytes: Vec<u8>,
    last: u64,
    used: u32,
}

impl Model for BitWriter {
    ghost use Rattle.std.specs.Prelude.{List, Bool};
    ghost use Rattle.std.specs.Vec.{vec_len, vec_capacity};
    ghost use Rattle.flac_write.specs.Writer.{written, IsPending};

    ghost Value = { List Bool };

    ghost view = { λ w. written w.bytes.items w.used w.last };

    ghost invariant = { λ w. IsPending w.used w.last (vec_len w.bytes) (vec_capacity w.bytes) };
}

impl BitWriter {
    /// No bits. Takes no memory.
    #[tactic(auto, unfolding(flac_definitions::specs::Bits::bits_of, flac_definitions::specs::Bits::bits_in))]
    pub fn new(alloc: Global) -> BitWriter
        ensures { result ≡ [] }
    {
        BitWriter {
            bytes: Vec::new(alloc),
            last: 0,
            used: 0,
        }
    }

    /// Takes all bits away. Takes no memory.
    #[tactic(auto, unfolding(flac_definitions::specs::Bits::bits_of, flac_definitions::specs::Bits::bits_in))]
    pub fn clear(&mut self)
        ensures { self.new ≡ [] }
    {
        self.bytes.clear();
        self.last = 0;
        self.used = 0;
    }

    /// Appends the `n` bits of `v`, the most significant first; `n` is at most 64, and `v` below 2^n. After a want of
    /// memory the bits are as before.
    #[inline]
    pub fn put(&mut self, n: u32, v: u64) -> Result<(), NoMemory>
        requires n { n ≤ 64 }
        requires v { v < 2 ^ n }
        ensures ok { OnOk result (self.new ≡ self.old ++ bits_of n v) }
        ensures err { OnErr result (self.new ≡ self.old) }
    {
        if self.used > 0 && n < 64 - self.used {
            self.last = joined(self.last, self.used, n, v);
            self.used += n;
            return Ok(());
        }
        self.put_slowly(n, v)
    }

    /// The same, where room is taken and a word may be filled.
    #[inline(never)]
    fn put_slowly(&mut self, n: u32, v: u64) -> Result<(), NoMemory>
        requires n { n ≤ 64 }
        requires v { v < 2 ^ n }
        ensures ok { OnOk result (self.new ≡ self.old ++ bits_of n v) }
        ensures err { OnErr result (self.new ≡ self.old) }
    {
        self.bytes.reserve(16)?;
        let free = 64 - self.used;
        if n < free {
            self.last = joined(self.last, self.used, n, v);
            self.used += n;
            return Ok(());
        }
        let rest = n - free;
        let word = filled(self.last, self.used, n, v);
        append(&mut self.bytes, &word.to_be_bytes());
        self.last = low(v, rest);
        self.used = rest;
        Ok(())
    }

    /// Appends zeros up to a byte. After a want of memory the bits are as before.
    pub fn pad(&mut self) -> Result<(), NoMemory>
        ensures ok { OnOk result
            (self.new ≡ self.old ++ bits_of (bits_to_byte (length self.old)) 0) }
        ensures whole { OnOk result (length self.new % 8 ≡ 0) }
        ensures err { OnErr result (self.new ≡ self.old) }
    {
        let n = (8 - self.used % 8) % 8;
        self.put(n, 0)
    }

    /// The CRC-8 of the bits (RFC 9639, section 9.1.8), which fill whole bytes. Takes no memory.
    pub fn crc8(&mut self) -> u8
        requires { length self.old % 8 ≡ 0 }
        ensures value { result ≡ bits_sum 8 0x07 self.old }
        ensures same { self.new ≡ self.old }
    {
        append_bits(&mut self.bytes, self.last, self.used);
        self.last = 0;
        self.used = 0;
        crc8(self.bytes.as_slice())
    }

    /// The CRC-16 of the bits (RFC 9639, section 9.3), which fill whole bytes. Takes no memory.
    pub fn crc16(&mut self) -> u16
        requires { length self.old % 8 ≡ 0 }
        ensures value { result ≡ bits_sum 16 0x8005 self.old }
        ensures same { self.new ≡ self.old }
    {
        append_bits(&mut self.bytes, self.last, self.used);
        self.last = 0;
        self.used = 0;
        crc16(self.bytes.as_slice())
    }

    /// The bytes of the bits, which fill whole bytes, as after `pad`. Takes no memory.
    pub fn into_bytes(self) -> Vec<u8>
        requires { length self % 8 ≡ 0 }
        ensures { bits_in result.items ≡ self }
    {
        let mut bytes = self.bytes;
        append_bits(&mut bytes, self.last, self.used);
        bytes
    }
}

/// Appends bits that fill whole bytes, for which there is room.
fn append_bits(bytes: &mut Vec<u8>, last: u64, used: u32)
    requires pending { IsPending used last (vec_len bytes.old) (vec_capacity bytes.old) }
    requires whole { used % 8 ≡ 0 }
    ensures { bits_in bytes.new.items ≡ written bytes.old.items used last }
{
    if used > 0 {
        let word = last << (64 - used);
        append(bytes, &word.to_be_bytes()[..(used / 8) as usize]);
    }
}

/// Appends bytes for which there is room.
fn append(bytes: &mut Vec<u8>, more: &[u8])
    requires { vec_len bytes.old + length more.now ≤ vec_capacity bytes.old }
    ensures items { bytes.new.items ≡ bytes.old.items ++ more.now }
    ensures len { vec_len bytes.new ≡ vec_len bytes.old + length more.now }
    ensures capacity { vec_capacity bytes.old ≤ vec_capacity bytes.new }
{
    match bytes.extend_from_slice(more) {
        Ok(()) => {}
        Err(_) => unreachable!(),
    }
}

/// So many bits, and `n` more.
#[inline]
fn joined(last: u64, used: u32, n: u32, v: u64) -> u64
    requires last { last < 2 ^ used }
    requires room { used + n ≤ 63 }
    requires v { v < 2 ^ n }
    ensures value { result ≡ last * 2 ^ n + v }
    ensures bound { result < 2 ^ (used + n) }
{
    (last << n) | v
}

/// So many bits, and as many of the highest of `n` more as fill a word.
#[inline]
fn filled(last: u64, used: u32, n: u32, v: u64) -> u64
    requires used { used ≤ 63 }
    requires last { last < 2 ^ used }
    requires room { 64 ≤ used + n }
    requires n { n ≤ 64 }
    requires v { v < 2 ^ n }
    ensures { result ≡ last * 2 ^ (64 - used) + v / 2 ^ (n - (64 - used)) }
{
    let high = (last << (63 - used)) << 1;
    high | (v >> (n - (64 - used)))
}

/// The low bits.
#[inline]
fn low(v: u64, n: u32) -> u64
    requires { n ≤ 63 }
    ensures value { result ≡ v % 2 ^ n }
    ensures bound { result < 2 ^ n }
{
    v & ((1 << n) - 1)
}
