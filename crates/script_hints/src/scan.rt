// Looks into the text of a JSON value by places: that the text is JSON is known before.

/// The name of a member, with its escapes as they are: where it begins, and where the member's value begins.
#[derive(Clone, Copy)]
pub struct Name<'t> {
    pub at: usize,
    pub text: &'t [u8],
    pub value: usize,
}

/// A member of an object: its name, and where what follows it begins.
#[derive(Clone, Copy)]
pub struct Member<'t> {
    pub name: Name<'t>,
    pub next: usize,
}

/// An item of an array: where it begins, and where what follows it begins.
#[derive(Clone, Copy)]
pub struct Item {
    pub value: usize,
    pub next: usize,
}

/// The byte at a place, or 0 behind the end.
pub fn byte_at(text: &[u8], at: usize) -> u8 {
    match text.get(at) {
        Some(byte) => *byte,
        None => 0,
    }
}

fn is_blank(byte: u8) -> bool {
    matches!(byte, b' ' | b'\t' | b'\n' | b'\r')
}

/// The first place from here on that is not blank.
pub fn past_blanks(text: &[u8], at: usize) -> usize {
    for i in at..text.len() {
        if !is_blank(byte_at(text, i)) {
            return i;
        }
    }
    text.len()
}

// The place behind the string whose first quotation mark stands here.
fn past_string(text: &[u8], at: usize) -> usize {
    let mut escaped = false;
    for i in at.saturating_add(1)..text.len() {
        let byte = byte_at(text, i);
        if escaped {
            escaped = false;
        } else if byte == b'\\' {
            escaped = true;
        } else if byte == b'"' {
            return i.saturating_add(1);
        }
    }
    text.len()
}

// The place behind the object or the array that begins here.
fn past_brackets(text: &[u8], at: usize) -> usize {
    let mut depth: usize = 0;
    let mut quoted = false;
    let mut escaped = false;
    for i in at..text.len() {
        let byte = byte_at(text, i);
        if quoted {
            if escaped {
                escaped = false;
            } else if byte == b'\\' {
                escaped = true;
            } else if byte == b'"' {
                quoted = false;
            }
        } else if byte == b'"' {
            quoted = true;
        } else if byte == b'{' || byte == b'[' {
            depth = depth.saturating_add(1);
        } else if byte == b'}' || byte == b']' {
            depth = depth.saturating_sub(1);
            if depth == 0 {
                return i.saturating_add(1);
            }
        }
    }
    text.len()
}

// The place behind the number or the word that begins here.
fn past_word(text: &[u8], at: usize) -> usize {
    for i in at..text.len() {
        let byte = byte_at(text, i);
        if is_blank(byte) || matches!(byte, b',' | b'}' | b']') {
            return i;
        }
    }
    text.len()
}

/// The place behind the value that begins here.
pub fn past_value(text: &[u8], at: usize) -> usize {
    match byte_at(text, at) {
        b'"' => past_string(text, at),
        b'{' | b'[' => past_brackets(text, at),
        _ => past_word(text, at),
    }
}

// The next place that holds something, past one comma.
fn past_comma(text: &[u8], at: usize) -> usize {
    let at = past_blanks(text, at);
    if byte_at(text, at) == b',' {
        past_blanks(text, at.saturating_add(1))
    } else {
        at
    }
}

/// Where the first member or item of what begins here is looked for.
pub fn inside(at: usize) -> usize {
    at.saturating_add(1)
}

/// The name of the next member; what follows its value is not known yet.
pub fn next_name(text: &[u8], at: usize) -> Option<Name<'_>> {
    let at = past_comma(text, at);
    if byte_at(text, at) != b'"' {
        return None;
    }
    let end = past_string(text, at);
    let colon = past_blanks(text, end);
    Some(Name {
        at,
        text: text.get(inside(at)..end.saturating_sub(1)).unwrap_or(b""),
        value: past_blanks(text, colon.saturating_add(1)),
    })
}

/// The next member of an object.
pub fn next_member(text: &[u8], at: usize) -> Option<Member<'_>> {
    let name = next_name(text, at)?;
    let next = past_value(text, name.value);
    Some(Member { name, next })
}

/// Where the next item of an array begins.
pub fn next_start(text: &[u8], at: usize) -> Option<usize> {
    let value = past_comma(text, at);
    match byte_at(text, value) {
        b']' | 0 => None,
        _ => Some(value),
    }
}

/// The next item of an array.
pub fn next_item(text: &[u8], at: usize) -> Option<Item> {
    let value = next_start(text, at)?;
    let next = past_value(text, value);
    Some(Item { value, next })
}

/// What stands between the quotation marks of the string that begins here, with its escapes as they are.
pub fn string_at(text: &[u8], at: usize) -> Option<&[u8]> {
    if byte_at(text, at) != b'"' {
        return None;
    }
    let end = past_string(text, at).saturating_sub(1);
    text.get(at.saturating_add(1)..end)
}

/// Where the member of this name has its value, in the object that begins here. Of equal names the last counts.
pub fn find_member(text: &[u8], object: usize, name: &[u8]) -> Option<usize> {
    if byte_at(text, object) != b'{' {
        return None;
    }
    let mut found = None;
    let mut at = inside(object);
    for _ in 0..text.len() {
        let Some(member) = next_member(text, at) else {
            break;
        };
        if member.name.text == name {
            found = Some(member.name.value);
        }
        at = member.next;
    }
    found
}

/// Where item `n` of the array that begins here begins.
pub fn find_item(text: &[u8], array: usize, n: usize) -> Option<usize> {
    if byte_at(text, array) != b'[' {
        return None;
    }
    let mut at = inside(array);
    for _ in 0..n {
        at = next_item(text, at)?.next;
    }
    next_start(text, at)
}

/// How many items the array that begins here has.
pub fn count_items(text: &[u8], array: usize) -> usize {
    let mut count: usize = 0;
    if byte_at(text, array) != b'[' {
        return count;
    }
    let mut at = inside(array);
    for _ in 0..text.len() {
        let Some(item) = next_item(text, at) else {
            break;
        };
        count = count.saturating_add(1);
        at = item.next;
    }
    count
}
