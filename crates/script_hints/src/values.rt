// Whether a value is one that is wanted.

use crate::rules::Wanted;
use crate::scan::{byte_at, past_value, string_at};
use crate::script::{Held, Script};
use script_types::ground_named;

/// Whose member a value is: of a step of a caller, or of anything else.
#[derive(Clone, Copy)]
pub enum Owner {
    Step(usize, usize),
    Other,
}

fn is_name_byte(byte: u8) -> bool {
    matches!(byte, b'a'..=b'z' | b'0'..=b'9' | b'_' | b'-')
}

/// Whether a text has the form of a name.
pub fn is_name(text: &[u8]) -> bool {
    !text.is_empty() && text.len() <= 32 && text.iter().all(|byte| is_name_byte(*byte))
}

fn is_digit(byte: u8) -> bool {
    byte.is_ascii_digit()
}

// The number that these digits spell, where it fits 64 bits.
fn spelled(digits: &[u8]) -> Option<u64> {
    if digits.is_empty() {
        return None;
    }
    let mut number: u64 = 0;
    for byte in digits {
        if !is_digit(*byte) {
            return None;
        }
        let digit = u64::from(byte.wrapping_sub(b'0'));
        number = number.checked_mul(10)?.checked_add(digit)?;
    }
    Some(number)
}

/// The number of 64 bits that stands here, with no point, sign or exponent.
pub fn natural_at(text: &[u8], at: usize) -> Option<u64> {
    spelled(text.get(at..past_value(text, at))?)
}

fn is_integer(text: &[u8], at: usize) -> bool {
    if byte_at(text, at) != b'-' {
        return natural_at(text, at).is_some();
    }
    match natural_at(text, at.saturating_add(1)) {
        Some(n) => n > 0 && n <= 1 << 63,
        None => false,
    }
}

fn is_within(text: &[u8], at: usize, least: u64, most: u64) -> bool {
    match natural_at(text, at) {
        Some(n) => least <= n && n <= most,
        None => false,
    }
}

fn is_hex(text: &[u8]) -> bool {
    text.len() % 2 == 0 && text.iter().all(|byte| byte.is_ascii_hexdigit())
}

// Whether what a variable holds is what is wanted; what is not known is.
fn fits(held: Held, wanted: Wanted) -> bool {
    match held {
        Held::Chunk => matches!(wanted, Wanted::Chunk | Wanted::Copied),
        Held::Audio => matches!(
            wanted,
            Wanted::Audio | Wanted::Medium | Wanted::Copied | Wanted::Sized
        ),
        Held::Frame => matches!(
            wanted,
            Wanted::Frame | Wanted::Medium | Wanted::Copied | Wanted::Sized
        ),
        Held::Promise => wanted == Wanted::Promise,
        Held::Buffer => matches!(wanted, Wanted::Buffer | Wanted::Sized),
        Held::Unknown => true,
    }
}

// Whether a name is that of a variable that may stand here, or of none.
fn is_variable(script: &Script<'_>, owner: Owner, name: &[u8], wanted: Wanted) -> bool {
    let Owner::Step(i, j) = owner else {
        return true;
    };
    match script.find_variable(i, name, j) {
        Some((n, step)) => fits(script.held_by(i, n, step), wanted),
        None => true,
    }
}

// Whether a name is that of a codec that decodes, or that does not, or of none.
fn is_codec(script: &Script<'_>, name: &[u8], decodes: bool) -> bool {
    match script.kind_of(name) {
        Some(kind) => !matches!(kind, b"audio-encoder" | b"video-encoder") == decodes,
        None => true,
    }
}

fn is_right_name(script: &Script<'_>, owner: Owner, name: &[u8], wanted: Wanted) -> bool {
    if !is_name(name) {
        return false;
    }
    match wanted {
        Wanted::Fresh | Wanted::Codec | Wanted::Port => true,
        Wanted::Decoder => is_codec(script, name, true),
        Wanted::Encoder => is_codec(script, name, false),
        _ => is_variable(script, owner, name, wanted),
    }
}

fn is_kind(text: &[u8]) -> bool {
    matches!(
        text,
        b"audio-decoder" | b"audio-encoder" | b"video-decoder" | b"video-encoder"
    )
}

/// Whether the value that begins here may stand where this is wanted. A name that names nothing may.
pub fn may_stand(script: &Script<'_>, owner: Owner, at: usize, wanted: Wanted) -> bool {
    let text = script.text;
    let string = string_at(text, at);
    match wanted {
        Wanted::Object => byte_at(text, at) == b'{',
        Wanted::Array => byte_at(text, at) == b'[',
        Wanted::Text => string.is_some(),
        Wanted::Hex => string.is_some_and(|it| is_hex(it)),
        Wanted::Data => byte_at(text, at) == b'{' || string.is_some_and(|it| is_hex(it)),
        Wanted::Kind => string.is_some_and(|it| is_kind(it)),
        Wanted::PortKind => string.is_some_and(|it| matches!(it, b"audio" | b"frame")),
        Wanted::Ground => string.is_some_and(|it| ground_named(it).is_some()),
        Wanted::Natural => natural_at(text, at).is_some(),
        Wanted::Integer => is_integer(text, at),
        Wanted::Saturation => is_within(text, at, 1, 64),
        Wanted::Size => is_within(text, at, 0, 16_777_216),
        _ => match string {
            Some(name) => is_right_name(script, owner, name, wanted),
            None => false,
        },
    }
}
