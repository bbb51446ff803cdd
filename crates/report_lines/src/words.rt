// The bytes before a mark, a prefix, a word, a name.
ghost use Rattle.std.specs.Prelude.{◌≡◌, ◌==◌, position, not};
ghost use Rattle.std.specs.List.{list_all};
ghost use Rattle.std.specs.Char.{is_ascii_digit};
ghost use Rattle.std.specs.Option.{option_map};
ghost use Rattle.report_lines.specs.Words as spec;

/// The bytes before the first byte that is `mark`, and those behind it.
pub fn upto(mark: u8, bytes: &[u8]) -> Option<(&[u8], &[u8])>
    ensures { option_map (λ x. (x.0.now, x.1.now)) result ≡ spec.upto mark bytes.now }
{
    match place_of_mark(mark, bytes) {
        None => None,
        Some(i) => Some((&bytes[..i], &bytes[i + 1..])),
    }
}

fn place_of_mark(mark: u8, bytes: &[u8]) -> Option<usize>
    ensures { result ≡ position (λ b. b == mark) bytes.now }
{
    bytes.iter().position(|b| *b == mark)
}

/// The bytes behind a prefix, where they begin with it.
pub fn after<'a>(prefix: &[u8], bytes: &'a [u8]) -> Option<&'a [u8]>
    ensures { option_map (λ x. x.now) result ≡ spec.after prefix.now bytes.now }
{
    bytes.strip_prefix(prefix)
}

/// Whether each byte is a decimal digit.
pub fn are_digits(word: &[u8]) -> bool
    ensures { result ≡ list_all is_ascii_digit word.now }
{
    word.iter().all(|b| b.is_ascii_digit())
}

fn is_word_byte(b: u8) -> bool
    ensures { result ≡ spec.is_word_byte b }
{
    b.is_ascii_lowercase() || b.is_ascii_digit() || b.is_ascii_uppercase() || b == b'_' || b == b'-'
}

/// The longest word in front, maybe empty, the byte that ends it, and the bytes behind that.
pub fn word_at(bytes: &[u8]) -> Option<(&[u8], u8, &[u8])>
    ensures { option_map (λ x. (x.0.now, x.1, x.2.now)) result ≡ spec.word_at bytes.now }
{
    match place_of_end(bytes) {
        None => None,
        Some(i) => Some((&bytes[..i], bytes[i], &bytes[i + 1..])),
    }
}

fn place_of_end(bytes: &[u8]) -> Option<usize>
    ensures { result ≡ position (λ b. not (spec.is_word_byte b)) bytes.now }
{
    bytes.iter().position(|b| !is_word_byte(*b))
}
