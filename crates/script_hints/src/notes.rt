// The lines of hints, as they are put together.

use crate::scan::{byte_at, past_value};
use itoa::Buffer;
use std::alloc::{AllocError, Global};

// The most bytes of a value that are shown.
const MOST_SHOWN: usize = 60;

/// Lines on a file: each begins with its name, and the line and the column, from 1, of what it speaks of.
#[derive(Drop)]
pub struct Notes<'t> {
    file: &'t str,
    text: &'t [u8],
    lines: Vec<u8>,
}

// Bytes that continue a character of UTF-8 are no column of their own.
fn is_character(byte: u8) -> bool {
    byte & 0xc0 != 0x80
}

// A byte as it is shown. A delete is a question mark, and a control character of two bytes an inverted one.
fn shown(before: u8, byte: u8) -> u8 {
    if byte == 0x7f {
        b'?'
    } else if before == 0xc2 && (0x80..=0x9f).contains(&byte) {
        0xbf
    } else {
        byte
    }
}

// The line and the column of a place, from 1.
fn position(text: &[u8], at: usize) -> (usize, usize) {
    let mut line: usize = 1;
    let mut column: usize = 1;
    for i in 0..at.min(text.len()) {
        let byte = byte_at(text, i);
        if byte == b'\n' {
            line = line.saturating_add(1);
            column = 1;
        } else if is_character(byte) {
            column = column.saturating_add(1);
        }
    }
    (line, column)
}

impl<'t> Notes<'t> {
    /// No lines yet.
    pub fn new(alloc: Global, file: &'t str, text: &'t [u8]) -> Notes<'t> {
        Notes {
            file,
            text,
            lines: Vec::new(alloc),
        }
    }

    /// The file's text.
    pub fn text(&self) -> &'t [u8] {
        self.text
    }

    /// The lines.
    pub fn into_lines(self) -> Vec<u8> {
        self.lines
    }

    /// Begins a line on the place.
    pub fn begin(&mut self, at: usize) -> Result<(), AllocError> {
        let (line, column) = position(self.text, at);
        self.say(self.file)?;
        self.say(":")?;
        self.number(line)?;
        self.say(":")?;
        self.number(column)?;
        self.say(": ")
    }

    /// Begins a line on the whole file.
    pub fn begin_file(&mut self) -> Result<(), AllocError> {
        self.say(self.file)?;
        self.say(": ")
    }

    /// Ends the line.
    pub fn end(&mut self) -> Result<(), AllocError> {
        self.say("\n")
    }

    /// Adds a text.
    pub fn say(&mut self, words: &str) -> Result<(), AllocError> {
        self.bytes(words.as_bytes())
    }

    /// Adds bytes, with another character in the place of each that a terminal would obey.
    pub fn bytes(&mut self, bytes: &[u8]) -> Result<(), AllocError> {
        self.lines.reserve(bytes.len())?;
        let mut before = b' ';
        for byte in bytes {
            self.lines.push(shown(before, *byte))?;
            before = *byte;
        }
        Ok(())
    }

    /// Adds a number.
    pub fn number(&mut self, number: usize) -> Result<(), AllocError> {
        let mut buffer = Buffer::new();
        self.bytes(buffer.format(number as u64).as_bytes())
    }

    /// Adds a member's name.
    pub fn member(&mut self, name: &str) -> Result<(), AllocError> {
        self.say("\"")?;
        self.say(name)?;
        self.say("\"")
    }

    // Adds a value as it stands in the file, of a long one the front.
    fn quote(&mut self, at: usize, end: usize) -> Result<(), AllocError> {
        let mut most = end.min(at.saturating_add(MOST_SHOWN));
        let is_whole = most == end;
        for _ in 0..4 {
            if !is_whole && !is_character(byte_at(self.text, most)) {
                most = most.saturating_sub(1);
            }
        }
        match self.text.get(at..most) {
            Some(bytes) => self.bytes(bytes)?,
            None => {}
        }
        if is_whole { Ok(()) } else { self.say("..") }
    }

    /// Adds the character that stands at the place.
    pub fn character(&mut self, at: usize) -> Result<(), AllocError> {
        let mut end = at.saturating_add(1);
        for _ in 0..3 {
            if !is_character(byte_at(self.text, end)) {
                end = end.saturating_add(1);
            }
        }
        if byte_at(self.text, at) < b' ' {
            return self.say("a control character");
        }
        match self.text.get(at..end) {
            Some(bytes) => self.bytes(bytes),
            None => Ok(()),
        }
    }

    /// Adds what stands at the place: an object and an array by their kind alone.
    pub fn met(&mut self, at: usize) -> Result<(), AllocError> {
        match byte_at(self.text, at) {
            b'{' => self.say("an object"),
            b'[' => self.say("an array"),
            _ => self.quote(at, past_value(self.text, at)),
        }
    }
}
