// Headers of frames, written.
ghost use Rattle.std.specs.Prelude.{◌≡◌, ◌<◌, ◌≤◌, ◌+◌, ◌-◌, ◌*◌, ◌/◌, ◌%◌, ◌^◌, ◌++◌, [], List, ℕ, length, OnOk, OnErr};
ghost use Rattle.flac_definitions.specs.Bits.{bits_of};
ghost use Rattle.flac_definitions.specs.HeaderWriting.{block_size_code, sample_rate_code, depth_code, further_bits, further_count, number_bits, long_number_bits, size_bits, code_bits, front_bits, header_bits, IsWritable};

use crate::writer::BitWriter;
use flac_definitions::FrameHeader;
use wc_base::NoMemory;

/// Writes the header of a frame to a writer with no bits: blocking bit 0, the block size and the rate by the codes of
/// the standard's tables where one fits, the rate else as that of the description, the number in its shortest form,
/// and the CRC-8 (RFC 9639, section 9.1). After a want of memory the writer has no bits.
pub fn write_header(w: &mut BitWriter, h: &FrameHeader) -> Result<(), NoMemory>
    requires empty { w.old ≡ [] }
    requires writable { IsWritable h.now }
    ensures ok { OnOk result (w.new ≡ header_bits h.now) }
    ensures err { OnErr result (w.new ≡ w.old) }
{
    let written = write_fields(w, h);
    if written.is_err() {
        w.clear();
    }
    written
}

/// The header; after a want of memory a front of it may stand there.
fn write_fields(w: &mut BitWriter, h: &FrameHeader) -> Result<(), NoMemory>
    requires empty { w.old ≡ [] }
    requires writable { IsWritable h.now }
    ensures { OnOk result (w.new ≡ header_bits h.now) }
{
    write_codes(w, h)?;
    write_number(w, h.number)?;
    write_size(w, block_size_code(h.block), h.block)?;
    let sum = w.crc8();
    w.put(8, sum as u64)
}

/// The first 32 bits.
fn write_codes(w: &mut BitWriter, h: &FrameHeader) -> Result<(), NoMemory>
    requires writable { IsWritable h.now }
    ensures { OnOk result (w.new ≡ w.old ++ code_bits h.now) }
{
    w.put(15, 0x7ffc)?;
    w.put(1, 0)?;
    w.put(4, block_size_code(h.block) as u64)?;
    w.put(4, sample_rate_code(h.rate) as u64)?;
    w.put(4, h.assignment as u64)?;
    w.put(3, depth_code(h.depth) as u64)?;
    w.put(1, 0)
}

/// The code of a block size.
fn block_size_code(block: u32) -> u32
    ensures value { result ≡ block_size_code block }
    ensures bound { result < 16 }
{
    match block {
        192 => 1,
        576 => 2,
        1152 => 3,
        2304 => 4,
        4608 => 5,
        256 => 8,
        512 => 9,
        1024 => 10,
        2048 => 11,
        4096 => 12,
        8192 => 13,
        16384 => 14,
        32768 => 15,
        0..=256 => 6,
        _ => 7,
    }
}

/// The code of a rate.
fn sample_rate_code(rate: u32) -> u32
    ensures value { result ≡ sample_rate_code rate }
    ensures bound { result < 16 }
{
    match rate {
        88200 => 1,
        176400 => 2,
        192000 => 3,
        8000 => 4,
        16000 => 5,
        22050 => 6,
        24000 => 7,
        32000 => 8,
        44100 => 9,
        48000 => 10,
        96000 => 11,
        _ => 0,
    }
}

/// The code of a depth.
fn depth_code(depth: u8) -> u32
    ensures value { result ≡ depth_code depth }
    ensures bound { result < 8 }
{
    match depth {
        8 => 1,
        16 => 4,
        24 => 6,
        _ => 7,
    }
}

/// A coded number.
fn write_number(w: &mut BitWriter, n: u64) -> Result<(), NoMemory>
    requires { n < 2 ^ 31 }
    ensures { OnOk result (w.new ≡ w.old ++ number_bits n) }
{
    if n < 128 {
        return w.put(8, n);
    }
    write_long_number(w, further_count(n), n)
}

/// How many bytes a coded number has behind its first.
fn further_count(n: u64) -> u32
    requires { n < 2 ^ 31 }
    ensures value { result ≡ further_count n }
    ensures some { 1 ≤ result }
    ensures few { result ≤ 5 }
    ensures fits { n < 2 ^ (5 * result + 6) }
{
    if n < 1 << 11 {
        1
    } else if n < 1 << 16 {
        2
    } else if n < 1 << 21 {
        3
    } else if n < 1 << 26 {
        4
    } else {
        5
    }
}

/// A coded number with bytes behind its first.
fn write_long_number(w: &mut BitWriter, count: u32, n: u64) -> Result<(), NoMemory>
    requires some { 1 ≤ count }
    requires few { count ≤ 5 }
    requires fits { n < 2 ^ (5 * count + 6) }
    ensures { OnOk result (w.new ≡ w.old ++ long_number_bits count n) }
{
    w.put(8, first_byte(count, n))?;
    let mut left = count;
    while left > 0 {
        left -= 1;
        w.put(8, 128 + (n >> (6 * left)) % 64)?;
    }
    Ok(())
}

/// The first byte of a coded number: as many ones as the number has bytes, a zero, and its highest bits.
fn first_byte(count: u32, n: u64) -> u64
    requires some { 1 ≤ count }
    requires few { count ≤ 5 }
    requires fits { n < 2 ^ (5 * count + 6) }
    ensures value { result ≡ (256 - 2 ^ (7 - count)) + n / 2 ^ (6 * count) }
    ensures bound { result < 2 ^ 8 }
{
    let marks = 256 - (1 << (7 - count));
    marks + (n >> (6 * count))
}

/// The block size behind the coded number, where its code says so.
fn write_size(w: &mut BitWriter, code: u32, block: u32) -> Result<(), NoMemory>
    requires some { 0 < block }
    requires few { block ≤ 65535 }
    requires code { code ≡ block_size_code block }
    ensures { OnOk result (w.new ≡ w.old ++ size_bits code block) }
{
    match code {
        6 => w.put(8, block as u64 - 1),
        7 => w.put(16, block as u64 - 1),
        _ => Ok(()),
    }
}
