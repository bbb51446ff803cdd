// Values of a partition.
ghost use Rattle.std.specs.Prelude.{◌≡◌, pos, negsuc, ◌+◌, ◌-◌, ◌*◌, ◌/◌, ◌%◌, ◌^◌, ◌<◌, ◌≤◌, ◌==◌, length, take, drop, OnOk, IfOk, IfSome, if◌then◌else◌};
ghost use Rattle.flac_definitions.specs.Bits.{Place};
ghost use Rattle.flac_rice.specs.Reading.{place_in, place_before, AreAhead, Fills, ReadsAhead, ReadsValue};
ghost use Rattle.flac_definitions.specs.Residual.{each_at, value_at, unfolded_value};
ghost use Rattle.std.specs.Int.{w64, leading_zeros};
ghost use Rattle.flac_bits.specs.Window.{IsWindow};

use flac_bits::{Window, fill_up, number_at, window_at, zeros_from};
use flac_definitions::ResidualFault;

/// Reads as many values of a parameter as there are places.
pub fn values_into(
    bytes: &[u8],
    at: u64,
    parameter: u32,
    out: &mut [i32],
) -> Result<u64, ResidualFault>
    requires few { length bytes.now < 2 ^ 61 }
    requires there { at ≤ 8 * length bytes.now }
    requires parameter { parameter ≤ 30 }
    ensures filled { Fills (each_at (value_at parameter) (length out.old) (place_in bytes.now at)) result bytes.now out.new }
    ensures there { IfOk result (λ at. at ≤ 8 * length bytes.now) }
{
    // A loop of its own for each parameter that is common: its shifts are constants. As many values are read for one
    // filling as mostly fit in a window.
    match parameter {
        0 => values_with(bytes, at, 0, 8, out),
        1 => values_with(bytes, at, 1, 8, out),
        2 => values_with(bytes, at, 2, 8, out),
        3 => values_with(bytes, at, 3, 8, out),
        4 => values_with(bytes, at, 4, 4, out),
        5 => values_with(bytes, at, 5, 4, out),
        6 => values_with(bytes, at, 6, 4, out),
        7 => values_with(bytes, at, 7, 4, out),
        8 => values_with(bytes, at, 8, 4, out),
        9 => values_with(bytes, at, 9, 4, out),
        10 => values_with(bytes, at, 10, 4, out),
        11 => values_with(bytes, at, 11, 2, out),
        12 => values_with(bytes, at, 12, 2, out),
        13 => values_with(bytes, at, 13, 2, out),
        14 => values_with(bytes, at, 14, 2, out),
        15 => values_with(bytes, at, 15, 2, out),
        16 => values_with(bytes, at, 16, 2, out),
        17 => values_with(bytes, at, 17, 2, out),
        18 => values_with(bytes, at, 18, 2, out),
        19 => values_with(bytes, at, 19, 2, out),
        20 => values_with(bytes, at, 20, 2, out),
        _ => values_with(bytes, at, parameter, 2, out),
    }
}

/// The same; where it is inlined, the parameter and how many values are read for one filling may be constants.
#[inline(always)]
fn values_with(
    bytes: &[u8],
    at: u64,
    parameter: u32,
    each: usize,
    out: &mut [i32],
) -> Result<u64, ResidualFault>
    requires few { length bytes.now < 2 ^ 61 }
    requires there { at ≤ 8 * length bytes.now }
    requires parameter { parameter ≤ 30 }
    requires each { 0 < each }
    ensures filled { Fills (each_at (value_at parameter) (length out.old) (place_in bytes.now at)) result bytes.now out.new }
    ensures there { IfOk result (λ at. at ≤ 8 * length bytes.now) }
{
    let mut ahead = none_ahead(at);
    for i in 0..out.len() {
        ahead = filled_up(bytes, ahead, i % each == 0);
        let (value, behind) = match next_value(bytes, ahead, parameter) {
            Ok(x) => x,
            Err(e) => return Err(e),
        };
        out[i] = value;
        ahead = behind;
    }
    Ok(place_of(ahead))
}

/// The next bits in a word, and the place behind them.
#[derive(Clone, Copy)]
struct Ahead {
    window: Window,
    end: u64,
}

/// No bits ahead of a place.
#[inline(always)]
fn none_ahead(at: u64) -> Ahead
    ensures { result ≡ record { window = record { word = 0; valid = 0 }; end = at } }
{
    Ahead {
        window: Window { word: 0, valid: 0 },
        end: at,
    }
}

/// The place of the next bit.
#[inline(always)]
fn place_of(ahead: Ahead) -> u64
    requires { ahead.window.valid ≤ ahead.end }
    ensures { result ≡ place_before ahead }
{
    ahead.end - ahead.window.valid as u64
}

/// The same bits and more, if they are wanted now.
#[inline(always)]
fn filled_up(bytes: &[u8], ahead: Ahead, now: bool) -> Ahead
    requires few { length bytes.now < 2 ^ 61 }
    requires ahead { AreAhead bytes.now ahead }
    ensures ahead { AreAhead bytes.now result }
    ensures place { place_before result ≡ place_before ahead }
{
    if !now {
        return ahead;
    }
    let window = fill_up(bytes, ahead.end, ahead.window);
    Ahead {
        window,
        end: ahead.end + (window.valid - ahead.window.valid) as u64,
    }
}

/// The next value, and the bits ahead of what is behind it.
#[inline(always)]
fn next_value(bytes: &[u8], ahead: Ahead, parameter: u32) -> Result<(i32, Ahead), ResidualFault>
    requires few { length bytes.now < 2 ^ 61 }
    requires ahead { AreAhead bytes.now ahead }
    requires parameter { parameter ≤ 30 }
    ensures value { ReadsAhead (value_at parameter) bytes.now ahead result }
    ensures ahead { IfOk result (λ x. AreAhead bytes.now x.1) }
{
    let code = match next_code(bytes, ahead, parameter) {
        Some(code) => code,
        None => return value_behind(bytes, ahead, parameter),
    };
    let window = code.ahead.window;
    let folded = folded_at_front(window.word, code.zeros, parameter);
    if folded >= 0xffff_ffff {
        return Err(ResidualFault::Range {
            bit: place_of(ahead),
        });
    }
    let behind = Ahead {
        window: Window {
            word: shift_twice(window.word, code.zeros, parameter + 1),
            valid: window.valid - (code.zeros + 1 + parameter),
        },
        end: code.ahead.end,
    };
    Ok((unfold(folded), behind))
}

/// Bits ahead that begin with a whole code of so many zeros.
#[derive(Clone, Copy)]
struct Code {
    ahead: Ahead,
    zeros: u32,
}

/// The bits ahead with the next code whole in their front; none where eight bytes do not hold it.
#[inline(always)]
fn next_code(bytes: &[u8], ahead: Ahead, parameter: u32) -> Option<Code>
    requires few { length bytes.now < 2 ^ 61 }
    requires ahead { AreAhead bytes.now ahead }
    requires parameter { parameter ≤ 30 }
    ensures ahead { IfSome result (λ c. AreAhead bytes.now c.ahead) }
    ensures place { IfSome result (λ c. place_before c.ahead ≡ place_before ahead) }
    ensures zeros { IfSome result (λ c. c.zeros ≡ leading_zeros w64 c.ahead.window.word) }
    ensures whole { IfSome result (λ c. c.zeros + 1 + parameter ≤ c.ahead.window.valid) }
{
    let zeros = ahead.window.word.leading_zeros();
    if zeros + 1 + parameter <= ahead.window.valid {
        return Some(Code { ahead, zeros });
    }
    code_at(bytes, place_of(ahead), parameter)
}

/// The same in a window that is loaded anew.
#[inline(always)]
fn code_at(bytes: &[u8], at: u64, parameter: u32) -> Option<Code>
    requires few { length bytes.now < 2 ^ 61 }
    requires parameter { parameter ≤ 30 }
    ensures ahead { IfSome result (λ c. AreAhead bytes.now c.ahead) }
    ensures place { IfSome result (λ c. place_before c.ahead ≡ at) }
    ensures zeros { IfSome result (λ c. c.zeros ≡ leading_zeros w64 c.ahead.window.word) }
    ensures whole { IfSome result (λ c. c.zeros + 1 + parameter ≤ c.ahead.window.valid) }
{
    if (at / 8) as usize + 8 > bytes.len() {
        return None;
    }
    let window = window_at(bytes, at);
    let zeros = window.word.leading_zeros();
    if zeros + 1 + parameter > window.valid {
        return None;
    }
    let ahead = Ahead {
        window,
        end: at + window.valid as u64,
    };
    Some(Code { ahead, zeros })
}

/// The folded number whose code stands at a word's front.
#[inline(always)]
fn folded_at_front(word: u64, zeros: u32, parameter: u32) -> u64
    requires zeros { zeros ≡ leading_zeros w64 word }
    requires within { zeros + 1 + parameter ≤ 64 }
    requires parameter { parameter ≤ 30 }
    ensures { result ≡ zeros * 2 ^ parameter + (word * 2 ^ zeros % 2 ^ 64 / 2 ^ (63 - parameter) - 2 ^ parameter) }
{
    let from_one = (word << zeros) >> (63 - parameter);
    ((zeros as u64) << parameter) + (from_one & ((1 << parameter) - 1))
}

/// A word, moved up twice.
#[inline(always)]
fn shift_twice(word: u64, first: u32, second: u32) -> u64
    requires first { first < 64 }
    requires second { second < 64 }
    ensures { result ≡ word * 2 ^ (first + second) % 2 ^ 64 }
{
    (word << first) << second
}

/// The value that a folded number stands for.
#[inline(always)]
fn unfold(folded: u64) -> i32
    requires { folded < 2 ^ 32 - 1 }
    ensures { result ≡ unfolded_value folded }
{
    let half = (folded / 2) as i32;
    if folded % 2 == 0 { half } else { -1 - half }
}

/// The next value, wherever it lies, with no bits ahead behind it.
#[inline(always)]
fn value_behind(bytes: &[u8], ahead: Ahead, parameter: u32) -> Result<(i32, Ahead), ResidualFault>
    requires few { length bytes.now < 2 ^ 61 }
    requires ahead { AreAhead bytes.now ahead }
    requires parameter { parameter ≤ 30 }
    ensures value { ReadsAhead (value_at parameter) bytes.now ahead result }
    ensures ahead { IfOk result (λ x. AreAhead bytes.now x.1) }
{
    match slow_value(bytes, place_of(ahead), parameter) {
        Ok((value, next)) => Ok((value, none_ahead(next))),
        Err(e) => Err(e),
    }
}

/// One value, wherever it lies.
#[inline(never)]
fn slow_value(bytes: &[u8], at: u64, parameter: u32) -> Result<(i32, u64), ResidualFault>
    requires few { length bytes.now < 2 ^ 61 }
    requires there { at ≤ 8 * length bytes.now }
    requires parameter { parameter ≤ 30 }
    ensures value { ReadsValue (value_at parameter (place_in bytes.now at)) result bytes.now }
    ensures there { IfOk result (λ x. x.1 ≤ 8 * length bytes.now) }
{
    let Some(zeros) = zeros_from(bytes, at) else {
        return Err(ResidualFault::Short { bit: at });
    };
    let next = at + zeros + 1;
    if bytes.len() as u64 * 8 - next < parameter as u64 {
        return Err(ResidualFault::Short { bit: at });
    }
    let low = number_at(bytes, next, parameter);
    if zeros >= 0x1_0000_0000 {
        return Err(ResidualFault::Range { bit: at });
    }
    let folded = (zeros << parameter) + low;
    if folded >= 0xffff_ffff {
        return Err(ResidualFault::Range { bit: at });
    }
    Ok((unfold(folded), next + parameter as u64))
}
