// Reads values.
ghost use Rattle.std.specs.Prelude.{◌≡◌, IfOk, option_and_then, option_map};
ghost use Rattle.json.specs.Json.{if_last, value};
ghost use Rattle.json.specs.Lex.{tokens};
ghost use Rattle.json.specs.Value.{value_view};
ghost use Rattle.serde_json.specs.Read as spec;
ghost use Rattle.json_data.specs.View.{value_of, view};

use crate::range::is_in_range;
use json::{Error, Reader, Scratch, Value};
use std::alloc::Global;
use wc_base::NoMemory;

// Arrays and objects nest no deeper, as in serde_json.
const MAX_DEPTH: usize = 127;

// The one value of a text, whatever its numbers are.
fn read_tree<'a>(
    alloc: Global,
    text: &'a str,
    scratch: &'a mut Scratch,
) -> Result<Option<Value<'a>>, NoMemory>
    ensures { IfOk result (λ o. option_map (λ v. value_view v) o
        ≡ option_and_then (λ p. if_last p.0 p.1) (value spec.max_depth (tokens text.now))) }
{
    let mut reader = Reader::new(text, scratch)?;
    let value = match Value::read(alloc, &mut reader, MAX_DEPTH) {
        Ok(value) => value,
        Err(Error::OutOfMemory) => return Err(NoMemory),
        Err(_) => return Ok(None),
    };
    if reader.next().is_some() {
        return Ok(None);
    }
    Ok(Some(value))
}

// The value of a text.
fn read_text<'a>(
    alloc: Global,
    text: &'a str,
    scratch: &'a mut Scratch,
) -> Result<Option<Value<'a>>, NoMemory>
    ensures { IfOk result (λ o. option_map (λ v. view v) o ≡ spec.read text.now) }
{
    match read_tree(alloc, text, scratch)? {
        Some(value) if is_in_range(&value) => Ok(Some(value)),
        _ => Ok(None),
    }
}

/// Reads one JSON value, with strings and numbers borrowed from the bytes, or from `scratch` where a string has
/// escapes.
///
/// `None` where the bytes are not UTF-8, are no JSON value, nest deeper than 127 or have a number beyond the range of
/// floats. `NoMemory` where memory runs out.
pub fn read<'a>(
    alloc: Global,
    bytes: &'a [u8],
    scratch: &'a mut Scratch,
) -> Result<Option<Value<'a>>, NoMemory>
    ensures { IfOk result (λ o. option_map (λ v. view v) o ≡ value_of bytes.now) }
{
    match simdutf8::compat::from_utf8(bytes) {
        Ok(text) => read_text(alloc, text, scratch),
        Err(_) => Ok(None),
    }
}
