// Numbers and bytes, with the mark that ends each.
ghost use Rattle.std.specs.Prelude.{◌≡◌, ◌≢◌, IfOk, IfErr, Some, None, IsTrue};
ghost use Rattle.std.specs.List.{list_all};
ghost use Rattle.std.specs.Char.{is_ascii_digit};
ghost use Rattle.std.specs.Option.{option_map};
ghost use Rattle.report_lines.specs.Fields as spec;

use crate::words::{are_digits, upto};
use bytes::Bytes;
use std::alloc::Global;
use std::str;

/// Why a field was not read: memory was wanted, or the bytes do not begin with such a field.
#[derive(Clone, Copy, Debug, PartialEq, Eq)]
pub enum FieldFault {
    NoMemory,
    NoField,
}

// Rust's own parse also takes a sign in front, so the digits are looked at first.
fn value_of(digits: &[u8]) -> Option<u64>
    requires { IsTrue (list_all is_ascii_digit digits.now) }
    ensures { result ≡ spec.value_of digits.now }
{
    match str::from_utf8(digits) {
        Ok(text) => text.parse::<u64>().ok(),
        Err(_) => None,
    }
}

#[tactic(auto, unfolding(crate::specs::Fields::number_of))]
fn number_of(word: &[u8]) -> Option<u64>
    ensures { result ≡ spec.number_of word.now }
{
    if are_digits(word) {
        value_of(word)
    } else {
        None
    }
}

fn signed_of(word: &[u8]) -> Option<i64>
    ensures { result ≡ spec.signed_of word.now }
{
    match word {
        [] => None,
        [b'-', digits @ ..] => {
            let n = number_of(digits)?;
            if 0 < n && n <= 1 << 63 {
                Some(-((n - 1) as i64) - 1)
            } else {
                None
            }
        }
        _ => {
            let n = number_of(word)?;
            if n < 1 << 63 { Some(n as i64) } else { None }
        }
    }
}

fn number_or_dash_of(word: &[u8]) -> Option<Option<u64>>
    ensures { result ≡ spec.number_or_dash_of word.now }
{
    match word {
        [b'-'] => Some(None),
        _ => {
            let n = number_of(word)?;
            Some(Some(n))
        }
    }
}

/// A number below 2^64 in decimal, up to the mark.
#[tactic(auto, unfolding(crate::specs::Fields::number_upto))]
pub fn number_upto(mark: u8, bytes: &[u8]) -> Option<(u64, &[u8])>
    ensures { option_map (λ x. (x.0, x.1.now)) result ≡ spec.number_upto mark bytes.now }
{
    let (word, rest) = upto(mark, bytes)?;
    let n = number_of(word)?;
    Some((n, rest))
}

/// A number below 2^32 in decimal, up to the mark.
#[tactic(auto, unfolding(crate::specs::Fields::short_upto))]
pub fn short_upto(mark: u8, bytes: &[u8]) -> Option<(u32, &[u8])>
    ensures { option_map (λ x. (x.0, x.1.now)) result ≡ spec.short_upto mark bytes.now }
{
    let (n, rest) = number_upto(mark, bytes)?;
    if n < 1 << 32 {
        Some((n as u32, rest))
    } else {
        None
    }
}

/// A signed number of 64 bits in decimal, with `-` before a negative one, up to the mark.
#[tactic(auto, unfolding(crate::specs::Fields::signed_upto))]
pub fn signed_upto(mark: u8, bytes: &[u8]) -> Option<(i64, &[u8])>
    ensures { option_map (λ x. (x.0, x.1.now)) result ≡ spec.signed_upto mark bytes.now }
{
    let (word, rest) = upto(mark, bytes)?;
    let n = signed_of(word)?;
    Some((n, rest))
}

/// A number below 2^64 in decimal, or `-` for none, up to the mark.
#[tactic(auto, unfolding(crate::specs::Fields::number_or_dash_upto))]
pub fn number_or_dash_upto(mark: u8, bytes: &[u8]) -> Option<(Option<u64>, &[u8])>
    ensures { option_map (λ x. (x.0, x.1.now)) result ≡ spec.number_or_dash_upto mark bytes.now }
{
    let (word, rest) = upto(mark, bytes)?;
    let n = number_or_dash_of(word)?;
    Some((n, rest))
}

// The same bytes, which can be shared from now on.
fn share(bytes: Vec<u8>) -> Result<Bytes, FieldFault>
    ensures ok { IfOk result (λ b. b ≡ bytes.items) }
    ensures err { IfErr result (λ e. e ≡ FieldFault.NoMemory) }
{
    match Bytes::from_vec(bytes) {
        Ok(bytes) => Ok(bytes),
        Err(_) => Err(FieldFault::NoMemory),
    }
}

fn bytes_of(alloc: Global, word: &[u8]) -> Result<Bytes, FieldFault>
    ensures ok { IfOk result (λ b. spec.bytes_of word.now ≡ Some b) }
    ensures err { IfErr result (λ e. e ≢ FieldFault.NoMemory → spec.bytes_of word.now ≡ None) }
{
    match word {
        [] => Err(FieldFault::NoField),
        [b'-'] => Ok(Bytes::new()),
        _ => match hex::decode(alloc, word) {
            Ok(bytes) => share(bytes),
            Err(hex::FromHexError::OutOfMemory) => Err(FieldFault::NoMemory),
            Err(_) => Err(FieldFault::NoField),
        },
    }
}

/// Bytes in hex, or `-` for none, up to the mark.
#[tactic(auto, unfolding(crate::specs::Fields::bytes_upto))]
pub fn bytes_upto(alloc: Global, mark: u8, bytes: &[u8]) -> Result<(Bytes, &[u8]), FieldFault>
    ensures ok { IfOk result (λ x. spec.bytes_upto mark bytes.now ≡ Some (x.0, x.1.now)) }
    ensures err { IfErr result
        (λ e. e ≢ FieldFault.NoMemory → spec.bytes_upto mark bytes.now ≡ None) }
{
    let (word, rest) = upto(mark, bytes).ok_or(FieldFault::NoField)?;
    let found = bytes_of(alloc, word)?;
    Ok((found, rest))
}
