// The line in which bytes part from a text.
ghost use Rattle.std.specs.Prelude.{◌≡◌};
ghost use Rattle.report_reader.specs.Fault.{feeds};
ghost use Rattle.report_check.specs.Verdict.{IsFirstLine};

use report_reader::first_difference;

// How many lines end in a text.
fn ended_lines(text: &[u8]) -> u64
    ensures { result ≡ feeds text.now }
{
    let mut lines = 0;
    let mut i = 0;
    while i < text.len() {
        if text[i] == b'\n' {
            lines += 1;
        }
        i += 1;
    }
    lines
}

/// The number, from 1, of the first line in which the bytes differ from the text; where they are the same, of their last
/// line. A line that one of them lacks has the number that it would have.
pub(crate) fn first_line(text: &[u8], bytes: &[u8]) -> u64
    ensures { IsFirstLine text.now bytes.now result }
{
    match first_difference(text, bytes) {
        Some(line) => line,
        None => ended_lines(bytes),
    }
}
