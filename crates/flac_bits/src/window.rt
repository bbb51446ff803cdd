// The next bits in a word.
ghost use Rattle.std.specs.Prelude.{◌≡◌, ◌+◌, ◌-◌, ◌*◌, ◌/◌, ◌%◌, ◌^◌, ◌<◌, ◌≤◌, length};
ghost use Rattle.flac_bits.specs.Window.{IsWindow};

use crate::reader::word_at;

/// The next `valid` bits in front of a word, with bits 0 behind them.
#[derive(Clone, Copy, Debug)]
pub struct Window {
    pub word: u64,
    pub valid: u32,
}

/// The window of the bits from a place on, to the end of the eight bytes that begin with its byte.
#[inline(always)]
pub fn window_at(bytes: &[u8], at: u64) -> Window
    requires { at / 8 + 8 ≤ length bytes.now }
    ensures window { IsWindow bytes.now at result.word result.valid }
    ensures valid { result.valid ≡ 64 - at % 8 }
{
    Window {
        word: word_at(bytes, (at / 8) as usize) << (at % 8) as u32,
        valid: 64 - (at % 8) as u32,
    }
}

/// A window, loaded anew where it has fewer than `n` bits and eight bytes are there.
#[inline(always)]
pub fn refill(bytes: &[u8], at: u64, window: Window, n: u32) -> Window
    requires { IsWindow bytes.now at window.word window.valid }
    ensures { IsWindow bytes.now at result.word result.valid }
{
    if n > window.valid && (at / 8) as usize + 8 <= bytes.len() {
        window_at(bytes, at)
    } else {
        window
    }
}

/// A window, filled up to 64 bits where it has from 8 to 63 and the eight bytes behind it are there; `end` is the place
/// behind it. What is loaded lies behind the window, so that a load need not wait for the length of the last code.
#[inline(always)]
pub fn fill_up(bytes: &[u8], end: u64, window: Window) -> Window
    requires behind { window.valid ≤ end }
    requires window { IsWindow bytes.now (end - window.valid) window.word window.valid }
    ensures window { IsWindow bytes.now (end - window.valid) result.word result.valid }
    ensures more { window.valid ≤ result.valid }
    ensures full { 8 ≤ window.valid → end / 8 + 8 ≤ length bytes.now → result.valid ≡ 64 }
{
    let valid = window.valid;
    if valid < 8 || valid >= 64 || (end / 8) as usize + 8 > bytes.len() {
        return window;
    }
    let next = window_at(bytes, end);
    Window {
        word: window.word + (next.word >> valid),
        valid: 64,
    }
}

/// The number of a word's first `n` bits.
#[inline(always)]
pub fn front(word: u64, n: u32) -> u64
    requires { n ≤ 64 }
    ensures number { result ≡ word / 2 ^ (64 - n) % 2 ^ n }
    ensures fits { result < 2 ^ n }
{
    if n == 0 { 0 } else { word >> (64 - n) }
}

/// A word, moved up by `n` bits.
#[inline(always)]
pub fn move_up(word: u64, n: u32) -> u64
    requires { n ≤ 64 }
    ensures { result ≡ word * 2 ^ n % 2 ^ 64 }
{
    if n == 64 { 0 } else { word << n }
}
