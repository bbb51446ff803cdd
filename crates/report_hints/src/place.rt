// Where a line stands in a report: its part, its entry, and what the entry shows.

/// A line's place: the first line of its part (`codec d audio-decoder 4`, `pool`), the first word of its entry, which is the
/// entry's number, and how many lines the entry has before this one.
#[derive(Clone, Copy)]
pub(crate) struct Place<'t> {
    pub(crate) part: &'t [u8],
    pub(crate) entry: &'t [u8],
    pub(crate) inner: u64,
}

// The bytes from one place to before another; none where they are not there.
fn between(text: &[u8], from: usize, to: usize) -> &[u8] {
    match text.get(from..to) {
        Some(bytes) => bytes,
        None => &[],
    }
}

/// The word with which a line begins.
pub(crate) fn first_word(line: &[u8]) -> &[u8] {
    for i in 0..line.len() {
        if line[i] == b' ' {
            return between(line, 0, i);
        }
    }
    line
}

// The first two words of a line: the name of a part.
fn two_words(line: &[u8]) -> &[u8] {
    let mut spaces: u32 = 0;
    for i in 0..line.len() {
        if line[i] == b' ' {
            if spaces == 1 {
                return between(line, 0, i);
            }
            spaces = 1;
        }
    }
    line
}

fn is_digit(byte: u8) -> bool {
    byte >= b'0' && byte <= b'9'
}

// Whether a line is of an entry or a result: it begins with its number. What an entry shows begins with a blank.
fn is_entry(line: &[u8]) -> bool {
    match line {
        [first, ..] => is_digit(*first),
        [] => false,
    }
}

fn is_shown(line: &[u8]) -> bool {
    match line {
        [first, ..] => *first == b' ',
        [] => false,
    }
}

impl<'t> Place<'t> {
    fn start() -> Place<'t> {
        Place {
            part: &[],
            entry: &[],
            inner: 0,
        }
    }

    // The place of the next line, which is this one.
    fn next(self, line: &'t [u8]) -> Place<'t> {
        if is_shown(line) {
            Place {
                part: self.part,
                entry: self.entry,
                inner: self.inner.saturating_add(1),
            }
        } else if is_entry(line) {
            Place {
                part: self.part,
                entry: first_word(line),
                inner: 0,
            }
        } else {
            Place {
                part: line,
                entry: &[],
                inner: 0,
            }
        }
    }

    /// Whether both are the same place of the same part.
    pub(crate) fn is_like(&self, other: &Place<'_>) -> bool {
        let part = two_words(self.part) == two_words(other.part);
        let entry = self.entry == other.entry;
        part && entry && self.inner == other.inner
    }
}

/// The line with this number, from 1, and its place; none where there are fewer lines.
pub(crate) fn line_of(text: &[u8], number: u64) -> Option<(&[u8], Place<'_>)> {
    let mut place = Place::start();
    let mut from: usize = 0;
    let mut count: u64 = 0;
    for at in 0..text.len() {
        if text[at] == b'\n' {
            let line = between(text, from, at);
            place = place.next(line);
            count = count.saturating_add(1);
            if count == number {
                return Some((line, place));
            }
            from = at.saturating_add(1);
        }
    }
    None
}

/// The line at this place, if it is there.
pub(crate) fn line_like<'t>(text: &'t [u8], wanted: &Place<'_>) -> Option<&'t [u8]> {
    let mut place = Place::start();
    let mut from: usize = 0;
    for at in 0..text.len() {
        if text[at] == b'\n' {
            let line = between(text, from, at);
            place = place.next(line);
            if place.is_like(wanted) {
                return Some(line);
            }
            from = at.saturating_add(1);
        }
    }
    None
}

/// The number, from 1, of the first line in which two texts differ.
pub(crate) fn first_difference(a: &[u8], b: &[u8]) -> u64 {
    let mut line: u64 = 1;
    for i in 0..a.len().min(b.len()) {
        if a[i] != b[i] {
            return line;
        }
        if a[i] == b'\n' {
            line = line.saturating_add(1);
        }
    }
    line
}
