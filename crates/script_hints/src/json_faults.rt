// Where a text stops being JSON.

use crate::notes::Notes;
use crate::scan::byte_at;
use json::{Reader, Token};
use json_data::{Scratch, Value};
use std::alloc::{AllocError, Global};

// Arrays and objects nest no deeper.
const MOST_DEPTH: usize = 127;

// How deep in arrays and objects a place is.
fn depth_at(text: &[u8], at: usize) -> usize {
    let mut depth: usize = 0;
    let mut quoted = false;
    let mut escaped = false;
    for i in 0..at {
        let byte = byte_at(text, i);
        if escaped {
            escaped = false;
        } else if quoted && byte == b'\\' {
            escaped = true;
        } else if byte == b'"' {
            quoted = !quoted;
        } else if !quoted && matches!(byte, b'{' | b'[') {
            depth = depth.saturating_add(1);
        } else if !quoted && matches!(byte, b'}' | b']') {
            depth = depth.saturating_sub(1);
        }
    }
    depth
}

// The first byte that no character of UTF-8 begins with or goes on with.
fn valid_up_to(bytes: &[u8]) -> usize {
    match std::str::from_utf8(bytes) {
        Ok(_) => bytes.len(),
        Err(fault) => fault.valid_up_to(),
    }
}

// Where the first number stands that no double holds.
fn great_number(alloc: Global, text: &str) -> Result<Option<usize>, AllocError> {
    let mut scratch = Scratch::new(alloc);
    let mut reader = Reader::new(text, &mut scratch)?;
    for _ in 0..text.len() {
        let before = reader.offset();
        match reader.next() {
            Some(Token::Number(number)) => match number.parse::<f64>() {
                Ok(value) if value.is_finite() => {}
                _ => return Ok(Some(before)),
            },
            Some(Token::Bad) | None => break,
            Some(_) => {}
        }
    }
    Ok(None)
}

// Where a value, or the end, is wanted and something else stands.
fn broken_at(alloc: Global, text: &str) -> Result<Option<usize>, AllocError> {
    let mut scratch = Scratch::new(alloc);
    let mut reader = Reader::new(text, &mut scratch)?;
    if Value::read(alloc, &mut reader, MOST_DEPTH).is_err() {
        return Ok(Some(reader.offset()));
    }
    let end = reader.offset();
    Ok(if reader.next().is_some() {
        Some(end)
    } else {
        None
    })
}

// The line on a place where the text stops being JSON.
fn tell_broken(notes: &mut Notes<'_>, at: usize) -> Result<(), AllocError> {
    notes.begin(at)?;
    if depth_at(notes.text(), at) > MOST_DEPTH {
        notes.say("arrays and objects nest deeper than 127")?;
    } else if at >= notes.text().len() {
        notes.say("the text ends here; a value, a comma or a closing bracket is wanted")?;
    } else {
        notes.say("no JSON goes on with ")?;
        notes.character(at)?;
        notes.say(" here")?;
    }
    notes.end()
}

/// Why a text is no JSON.
pub fn not_json(alloc: Global, notes: &mut Notes<'_>) -> Result<(), AllocError> {
    let bytes = notes.text();
    let valid = valid_up_to(bytes);
    let text = match std::str::from_utf8(bytes) {
        Ok(text) => text,
        Err(_) => {
            notes.begin(valid)?;
            notes.say("the byte here is no UTF-8")?;
            return notes.end();
        }
    };
    if let Some(at) = broken_at(alloc, text)? {
        return tell_broken(notes, at);
    }
    if let Some(at) = great_number(alloc, text)? {
        notes.begin(at)?;
        notes.say("the number here is too great for a double")?;
        return notes.end();
    }
    Ok(())
}
