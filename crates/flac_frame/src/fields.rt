// Fields of a header.
ghost use Rattle.std.specs.Prelude.{◌≡◌, ◌+◌, ◌*◌, ◌%◌, ◌^◌, ◌<◌, ◌≤◌, ◌==◌, nat_lt, OnOk, IfOk};
ghost use Rattle.flac_frame.specs.Reading.{Gives, Onward};
ghost use Rattle.flac_definitions.specs.Header.{part_at, field_at, tested_at, codes_at, further_bytes_at, behind_first_byte, coded_number_at, block_size_at, common_block_size, sample_rate_at, common_sample_rate, is_block_size_code, is_sample_rate_code, is_channel_code, is_depth_code, is_long_block_size};
ghost use Rattle.flac_definitions.specs.declared.fault.HeaderFault.TheVariants as fault;

use flac_bits::BitReader;
use flac_definitions::{HeaderCodes, HeaderFault};

/// A number of so many bits, of a field that begins at a place.
fn part(r: &mut BitReader<'_>, start: u64, n: u32) -> Result<u64, HeaderFault>
    requires { n ≤ 32 }
    ensures read { Gives (part_at start n r.old) result r.new }
    ensures onward { Onward r.old r.new }
    ensures fits { IfOk result (λ x. x < 2 ^ n) }
{
    match r.take(n) {
        Ok(x) => Ok(x),
        Err(_) => Err(HeaderFault::Short { bit: start }),
    }
}

pub fn field(r: &mut BitReader<'_>, n: u32) -> Result<u64, HeaderFault>
    requires { n ≤ 32 }
    ensures read { Gives (field_at n r.old) result r.new }
    ensures onward { Onward r.old r.new }
    ensures fits { IfOk result (λ x. x < 2 ^ n) }
{
    let start = r.at();
    part(r, start, n)
}

fn sync(r: &mut BitReader<'_>) -> Result<u64, HeaderFault>
    ensures read { Gives (tested_at (λ n. n == 0x7ffc) (λ _. fault.Sync) 15 r.old) result r.new }
    ensures onward { Onward r.old r.new }
{
    let x = match field(r, 15) {
        Ok(x) => x,
        Err(e) => return Err(e),
    };
    if x == 0x7ffc {
        Ok(x)
    } else {
        Err(HeaderFault::Sync)
    }
}

fn block_size_code(r: &mut BitReader<'_>) -> Result<u64, HeaderFault>
    ensures read { Gives (tested_at is_block_size_code fault.Reserved 4 r.old) result r.new }
    ensures onward { Onward r.old r.new }
    ensures fits { IfOk result (λ x. x < 16) }
{
    let bit = r.at();
    let x = match field(r, 4) {
        Ok(x) => x,
        Err(e) => return Err(e),
    };
    if x > 0 {
        Ok(x)
    } else {
        Err(HeaderFault::Reserved { bit })
    }
}

fn sample_rate_code(r: &mut BitReader<'_>) -> Result<u64, HeaderFault>
    ensures read { Gives (tested_at is_sample_rate_code fault.Reserved 4 r.old) result r.new }
    ensures onward { Onward r.old r.new }
    ensures fits { IfOk result (λ x. x < 16) }
{
    let bit = r.at();
    let x = match field(r, 4) {
        Ok(x) => x,
        Err(e) => return Err(e),
    };
    if x < 15 {
        Ok(x)
    } else {
        Err(HeaderFault::Reserved { bit })
    }
}

fn channel_code(r: &mut BitReader<'_>) -> Result<u64, HeaderFault>
    ensures read { Gives (tested_at is_channel_code fault.Reserved 4 r.old) result r.new }
    ensures onward { Onward r.old r.new }
    ensures fits { IfOk result (λ x. x < 11) }
{
    let bit = r.at();
    let x = match field(r, 4) {
        Ok(x) => x,
        Err(e) => return Err(e),
    };
    if x < 11 {
        Ok(x)
    } else {
        Err(HeaderFault::Reserved { bit })
    }
}

fn depth_code(r: &mut BitReader<'_>) -> Result<u64, HeaderFault>
    ensures read { Gives (tested_at is_depth_code fault.Reserved 3 r.old) result r.new }
    ensures onward { Onward r.old r.new }
    ensures fits { IfOk result (λ x. x < 8) }
{
    let bit = r.at();
    let x = match field(r, 3) {
        Ok(x) => x,
        Err(e) => return Err(e),
    };
    if x != 3 {
        Ok(x)
    } else {
        Err(HeaderFault::Reserved { bit })
    }
}

fn zero_bit(r: &mut BitReader<'_>) -> Result<u64, HeaderFault>
    ensures read { Gives (tested_at (λ n. n == 0) fault.Reserved 1 r.old) result r.new }
    ensures onward { Onward r.old r.new }
{
    let bit = r.at();
    let x = match field(r, 1) {
        Ok(x) => x,
        Err(e) => return Err(e),
    };
    if x == 0 {
        Ok(x)
    } else {
        Err(HeaderFault::Reserved { bit })
    }
}

/// The first 32 bits.
#[tactic(auto, unfolding(flac_definitions::specs::Header::codes_at))]
pub fn header_codes(r: &mut BitReader<'_>) -> Result<HeaderCodes, HeaderFault>
    ensures read { Gives (codes_at r.old) result r.new }
    ensures fits { IfOk result (λ c. c.assignment < 11) }
    ensures onward { Onward r.old r.new }
{
    sync(r)?;
    field(r, 1)?;
    let block = block_size_code(r)? as u8;
    let rate = sample_rate_code(r)? as u8;
    let assignment = channel_code(r)? as u8;
    let depth = depth_code(r)? as u8;
    zero_bit(r)?;
    Ok(HeaderCodes {
        block,
        rate,
        assignment,
        depth,
    })
}

/// So many bytes more of a coded number that begins at a place, behind the bits so far.
fn further_bytes(
    r: &mut BitReader<'_>,
    start: u64,
    count: u32,
    number: u64,
) -> Result<u64, HeaderFault>
    requires count { count ≤ 6 }
    requires number { number < 64 }
    ensures read { Gives (further_bytes_at start count number r.old) result r.new }
    ensures onward { Onward r.old r.new }
{
    let mut so_far = number;
    for _i in 0..count {
        let b = match part(r, start, 8) {
            Ok(b) => b,
            Err(e) => return Err(e),
        };
        if b / 64 != 2 {
            return Err(HeaderFault::Number);
        }
        so_far = 64 * so_far + b % 64;
    }
    Ok(so_far)
}

fn behind_first_byte(r: &mut BitReader<'_>, start: u64, b: u64) -> Result<u64, HeaderFault>
    requires { b < 256 }
    ensures read { Gives (behind_first_byte start b r.old) result r.new }
    ensures onward { Onward r.old r.new }
{
    if b < 128 {
        Ok(b)
    } else if b < 192 {
        Err(HeaderFault::Number)
    } else if b < 224 {
        further_bytes(r, start, 1, b - 192)
    } else if b < 240 {
        further_bytes(r, start, 2, b - 224)
    } else if b < 248 {
        further_bytes(r, start, 3, b - 240)
    } else if b < 252 {
        further_bytes(r, start, 4, b - 248)
    } else if b < 254 {
        further_bytes(r, start, 5, b - 252)
    } else if b < 255 {
        further_bytes(r, start, 6, b - 254)
    } else {
        Err(HeaderFault::Number)
    }
}

/// The coded number.
#[tactic(auto, unfolding(flac_definitions::specs::Header::coded_number_at))]
pub fn coded_number(r: &mut BitReader<'_>) -> Result<u64, HeaderFault>
    ensures read { Gives (coded_number_at r.old) result r.new }
    ensures onward { Onward r.old r.new }
{
    let start = r.at();
    let b = match field(r, 8) {
        Ok(b) => b,
        Err(e) => return Err(e),
    };
    behind_first_byte(r, start, b)
}

fn long_block_size(r: &mut BitReader<'_>) -> Result<u64, HeaderFault>
    ensures read { Gives (tested_at is_long_block_size fault.Reserved 16 r.old) result r.new }
    ensures onward { Onward r.old r.new }
    ensures fits { IfOk result (λ x. x < 65535) }
{
    let bit = r.at();
    let x = match field(r, 16) {
        Ok(x) => x,
        Err(e) => return Err(e),
    };
    if x < 65535 {
        Ok(x)
    } else {
        Err(HeaderFault::Reserved { bit })
    }
}

fn common_block_size(code: u32) -> u32
    ensures block { result ≡ common_block_size code }
    ensures fits { result < 65536 }
{
    match code {
        1 => 192,
        2 => 576,
        3 => 1152,
        4 => 2304,
        5 => 4608,
        8 => 256,
        9 => 512,
        10 => 1024,
        11 => 2048,
        12 => 4096,
        13 => 8192,
        14 => 16384,
        _ => 32768,
    }
}

/// The block size of a code.
#[tactic(auto, unfolding(flac_definitions::specs::Header::block_size_at))]
pub fn block_size(r: &mut BitReader<'_>, code: u32) -> Result<u32, HeaderFault>
    ensures read { Gives (block_size_at code r.old) result r.new }
    ensures onward { Onward r.old r.new }
    ensures fits { IfOk result (λ x. x < 65536) }
{
    if code == 6 {
        match field(r, 8) {
            Ok(x) => Ok(x as u32 + 1),
            Err(e) => Err(e),
        }
    } else if code == 7 {
        match long_block_size(r) {
            Ok(x) => Ok(x as u32 + 1),
            Err(e) => Err(e),
        }
    } else {
        Ok(common_block_size(code))
    }
}

fn common_sample_rate(code: u32) -> u32
    ensures { result ≡ common_sample_rate code }
{
    match code {
        1 => 88200,
        2 => 176_400,
        3 => 192_000,
        4 => 8000,
        5 => 16000,
        6 => 22050,
        7 => 24000,
        8 => 32000,
        9 => 44100,
        10 => 48000,
        _ => 96000,
    }
}

/// The rate of a code.
#[tactic(auto, unfolding(flac_definitions::specs::Header::sample_rate_at))]
pub fn sample_rate(r: &mut BitReader<'_>, described: u32, code: u32) -> Result<u32, HeaderFault>
    ensures read { Gives (sample_rate_at described code r.old) result r.new }
    ensures onward { Onward r.old r.new }
{
    match code {
        0 => Ok(described),
        12 => match field(r, 8) {
            Ok(x) => Ok(1000 * x as u32),
            Err(e) => Err(e),
        },
        13 => match field(r, 16) {
            Ok(x) => Ok(x as u32),
            Err(e) => Err(e),
        },
        14 => match field(r, 16) {
            Ok(x) => Ok(10 * x as u32),
            Err(e) => Err(e),
        },
        _ => Ok(common_sample_rate(code)),
    }
}
