// Reads the members of objects.
ghost use Rattle.std.specs.Prelude.{◌≡◌, ◌≢◌, IfOk, IfErr, Some, None, option_map, option_and_then, is_some};
ghost use Rattle.std.specs.List.{list_all};
ghost use Rattle.json_data.specs.View.{view, items_view};
ghost use Rattle.serde_json.specs.Find.{get, as_str};
ghost use Rattle.script_types.specs.Names as names;
ghost use Rattle.script_steps.specs.Members.{needed, checked_name, checked_object, text_in, name_in, array_in, object_in, object_if_there, natural_of, u32_of, duration_of, timestamp_of, text_of, hex_of, required, defaulted, optional, hex_if_there};
ghost use Rattle.script_steps.specs.Members as spec;
ghost use Rattle.script_steps.specs.Sources as sources;
ghost use Rattle.script_types.specs.Reading.{Gives};

use crate::{Stop, Wrong, copied};
use bytes::Bytes;
use json_data::{Value, as_items, as_natural, as_signed, is_object, member};
use std::alloc::Global;
use wc_base::{NoMemory, Text};

fn is_name_byte(b: u8) -> bool
    ensures { result ≡ names.is_name_byte b }
{
    matches!(b, b'a'..=b'z' | b'0'..=b'9' | b'_' | b'-')
}

fn has_name_bytes(text: &[u8]) -> bool
    ensures { result ≡ list_all names.is_name_byte text.now }
{
    text.iter().all(|b| is_name_byte(*b))
}

fn is_name(text: &str) -> bool
    ensures { result ≡ names.is_name text.now }
{
    if text.is_empty() || text.len() > 32 {
        return false;
    }
    has_name_bytes(text.as_bytes())
}

/// A text that has the form of a name.
pub fn as_name(text: &str) -> Option<&str>
    ensures { option_map (λ s. s.now) result ≡ checked_name text.now }
{
    if is_name(text) { Some(text) } else { None }
}

/// A member that is a text.
pub fn text_member<'v>(value: &'v Value<'_>, key: &str) -> Option<&'v str>
    ensures { option_map (λ s. s.now) result ≡ text_in key.now (view value.now) }
{
    json_data::as_text(member(value, key)?)
}

/// A member that is a name. `Shape` for any other.
pub fn name_member<'v>(value: &'v Value<'_>, key: &str) -> Result<&'v str, Stop<Wrong>>
    ensures ok { IfOk result (λ s. name_in key.now (view value.now) ≡ Ok s.now) }
    ensures err { IfErr result (λ e. name_in key.now (view value.now) ≡ Err e) }
{
    let Some(text) = text_member(value, key) else {
        return Err(Stop::Fault(Wrong::Shape));
    };
    as_name(text).ok_or(Stop::Fault(Wrong::Shape))
}

/// A member that is an array.
pub fn array_member<'v, 'a>(value: &'v Value<'a>, key: &str) -> Option<&'v [Value<'a>]>
    ensures { option_map (λ s. items_view s.now) result ≡ array_in key.now (view value.now) }
{
    as_items(member(value, key)?)
}

/// A member that is an object. `Shape` for any other.
pub fn object_member<'v, 'a>(value: &'v Value<'a>, key: &str) -> Result<&'v Value<'a>, Stop<Wrong>>
    ensures ok { IfOk result (λ v. object_in key.now (view value.now) ≡ Ok (view v.now)) }
    ensures err { IfErr result (λ e. object_in key.now (view value.now) ≡ Err e) }
{
    match member(value, key) {
        Some(object) if is_object(object) => Ok(object),
        _ => Err(Stop::Fault(Wrong::Shape)),
    }
}

/// An object that may be absent. `Shape` for any other value.
pub fn optional_object<'v, 'a>(
    value: Option<&'v Value<'a>>,
) -> Result<Option<&'v Value<'a>>, Stop<Wrong>>
    ensures ok { IfOk result
        (λ o. object_if_there (option_map (λ v. view v.now) value.entry)
        ≡ Ok (option_map (λ v. view v.now) o)) }
    ensures err { IfErr result
        (λ e. object_if_there (option_map (λ v. view v.now) value.entry) ≡ Err e) }
{
    match value {
        None => Ok(None),
        Some(object) if is_object(object) => Ok(Some(object)),
        Some(_) => Err(Stop::Fault(Wrong::Shape)),
    }
}

/// The value as an object. `Shape` for any other.
pub fn as_checked_object<'v, 'a>(value: &'v Value<'a>) -> Result<&'v Value<'a>, Stop<Wrong>>
    ensures ok { IfOk result (λ o. needed (checked_object (view value.now)) ≡ Ok (view o.now)) }
    ensures err { IfErr result (λ e. needed (checked_object (view value.now)) ≡ Err e) }
{
    if is_object(value) {
        Ok(value)
    } else {
        Err(Stop::Fault(Wrong::Shape))
    }
}

/// The text of a value. `Shape` for any other.
pub fn as_text<'v>(value: &'v Value<'_>) -> Result<&'v str, Stop<Wrong>>
    ensures ok { IfOk result (λ s. needed (as_str (view value.now)) ≡ Ok s.now) }
    ensures err { IfErr result (λ e. needed (as_str (view value.now)) ≡ Err e) }
{
    json_data::as_text(value).ok_or(Stop::Fault(Wrong::Shape))
}

/// Whether the object has a member of this name.
pub fn has(value: &Value<'_>, key: &str) -> bool
    ensures { result ≡ sources.has key.now (view value.now) }
{
    member(value, key).is_some()
}

fn is_integer(value: &Value<'_>) -> bool
    ensures { result ≡ spec.is_integer (view value.now) }
{
    as_natural(value).is_some() || as_signed(value).is_some()
}

fn read_u32(value: &Value<'_>) -> Result<Option<u32>, Stop<Wrong>>
    ensures { result ≡ u32_of (view value.now) }
{
    match as_natural(value) {
        Some(n) => Ok(if n < 1 << 32 { Some(n as u32) } else { None }),
        None if is_integer(value) => Ok(None),
        None => Err(Stop::Fault(Wrong::Shape)),
    }
}

fn read_duration(value: &Value<'_>) -> Result<Option<u64>, Stop<Wrong>>
    ensures { result ≡ duration_of (view value.now) }
{
    match as_natural(value) {
        Some(n) => Ok(if n < 1 << 53 { Some(n) } else { None }),
        None if is_integer(value) => Ok(None),
        None => Err(Stop::Fault(Wrong::Shape)),
    }
}

fn read_timestamp(value: &Value<'_>) -> Result<Option<i64>, Stop<Wrong>>
    ensures { result ≡ timestamp_of (view value.now) }
{
    let range = -((1 << 53) - 1)..=(1 << 53) - 1;
    match as_signed(value) {
        Some(n) => Ok(if range.contains(&n) { Some(n) } else { None }),
        None if is_integer(value) => Ok(None),
        None => Err(Stop::Fault(Wrong::Shape)),
    }
}

/// A member that is a number of 64 bits, 0 or above.
pub fn natural_member(value: &Value<'_>, key: &str) -> Option<u64>
    ensures { result ≡ option_and_then natural_of (get key.now (view value.now)) }
{
    as_natural(member(value, key)?)
}

/// A required number of 32 bits: no value where it is missing or outside.
pub fn u32_member(value: &Value<'_>, key: &str) -> Result<Option<u32>, Stop<Wrong>>
    ensures { result ≡ required u32_of (get key.now (view value.now)) }
{
    match member(value, key) {
        None => Ok(None),
        Some(number) => read_u32(number),
    }
}

/// A number of 32 bits that may be absent.
pub fn optional_u32_member(value: &Value<'_>, key: &str) -> Result<Option<Option<u32>>, Stop<Wrong>>
    ensures { result ≡ optional u32_of (get key.now (view value.now)) }
{
    match member(value, key) {
        None => Ok(Some(None)),
        Some(number) => Ok(read_u32(number)?.map(Some)),
    }
}

/// A number of 32 bits with a default, in an object that may be absent.
pub fn u32_member_or(
    value: Option<&Value<'_>>,
    key: &str,
    default: u32,
) -> Result<Option<u32>, Stop<Wrong>>
    ensures { result
        ≡ defaulted default u32_of
        (option_and_then (get key.now) (option_map (λ v. view v.now) value.entry)) }
{
    match value.and_then(|v| member(v, key)) {
        None => Ok(Some(default)),
        Some(number) => read_u32(number),
    }
}

/// A required timestamp in microseconds: no value where it is missing or outside.
pub fn timestamp_member(value: &Value<'_>, key: &str) -> Result<Option<i64>, Stop<Wrong>>
    ensures { result ≡ required timestamp_of (get key.now (view value.now)) }
{
    match member(value, key) {
        None => Ok(None),
        Some(number) => read_timestamp(number),
    }
}

/// A duration in microseconds that may be absent.
pub fn optional_duration_member(
    value: &Value<'_>,
    key: &str,
) -> Result<Option<Option<u64>>, Stop<Wrong>>
    ensures { result ≡ optional duration_of (get key.now (view value.now)) }
{
    match member(value, key) {
        None => Ok(Some(None)),
        Some(number) => Ok(read_duration(number)?.map(Some)),
    }
}

/// A required text: no value where it is missing.
pub fn text_value(alloc: Global, value: &Value<'_>, key: &str) -> Result<Option<Text>, Stop<Wrong>>
    ensures { Gives result (required text_of (get key.now (view value.now))) }
{
    match member(value, key) {
        None => Ok(None),
        Some(text) => match json_data::as_text(text) {
            Some(text) => Ok(Some(copied(alloc, text)?)),
            None => Err(Stop::Fault(Wrong::Shape)),
        },
    }
}

/// The bytes that a hex text spells; `None` for any other value.
pub fn read_hex(alloc: Global, value: &Value<'_>) -> Result<Option<Bytes>, NoMemory>
    ensures { IfOk result (λ o. o ≡ hex_of (view value.now)) }
{
    let Some(text) = json_data::as_text(value) else {
        return Ok(None);
    };
    match hex::decode(alloc, text) {
        Ok(bytes) => match Bytes::from_vec(bytes) {
            Ok(bytes) => Ok(Some(bytes)),
            Err(_) => Err(NoMemory),
        },
        Err(hex::FromHexError::OutOfMemory) => Err(NoMemory),
        Err(_) => Ok(None),
    }
}

/// Bytes as hex text that may be absent.
pub fn optional_hex_member(
    alloc: Global,
    value: &Value<'_>,
    key: &str,
) -> Result<Option<Bytes>, Stop<Wrong>>
    ensures { Gives result (hex_if_there (get key.now (view value.now))) }
{
    let Some(text) = member(value, key) else {
        return Ok(None);
    };
    match read_hex(alloc, text)? {
        Some(bytes) => Ok(Some(bytes)),
        None => Err(Stop::Fault(Wrong::Shape)),
    }
}
