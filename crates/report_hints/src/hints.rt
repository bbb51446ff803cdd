// What is said of a line at fault.

use crate::place::{Place, first_difference, line_like, line_of};
use itoa::Buffer;
use std::alloc::{AllocError, Global};

/// How a report is wrong.
#[derive(Clone, Copy, Debug, PartialEq, Eq)]
pub enum Fault {
    /// A line is none that a report of the script has there.
    Form,
    /// An entry or an output is not lawful.
    Lawless,
    /// Each part is lawful, but they are not those of the script's order.
    Order,
}

// The most bytes of a line that are shown.
const MOST_SHOWN: usize = 120;

// Lines on a report: each begins with its name and the number of the line of which it speaks.
#[derive(Drop)]
struct Notes<'t> {
    name: &'t str,
    lines: Vec<u8>,
}

impl<'t> Notes<'t> {
    fn say(&mut self, words: &str) -> Result<(), AllocError> {
        self.lines.extend_from_slice(words.as_bytes())
    }

    fn number(&mut self, number: u64) -> Result<(), AllocError> {
        let mut buffer = Buffer::new();
        self.say(buffer.format(number))
    }

    fn begin(&mut self, line: u64) -> Result<(), AllocError> {
        let name = self.name;
        self.say(name)?;
        self.say(":")?;
        self.number(line)?;
        self.say(": ")
    }

    // A line of a report, or its beginning; what is no printed character of ASCII is a question mark.
    fn quote(&mut self, line: &[u8]) -> Result<(), AllocError> {
        self.say("`")?;
        for i in 0..line.len().min(MOST_SHOWN) {
            let byte = line[i];
            let shown = if (b' '..0x7f).contains(&byte) {
                byte
            } else {
                b'?'
            };
            self.lines.push(shown)?;
        }
        if line.len() > MOST_SHOWN {
            self.say("..")?;
        }
        self.say("`")
    }
}

// Which rule a line breaks, by its place.
fn rule_of(place: &Place<'_>) -> &'static str {
    if place.part.starts_with(b"codec") {
        if place.inner > 0 {
            "is not what the entry shows by the codec's definition"
        } else {
            "may not follow the entries before it, by the codec's algorithms"
        }
    } else if place.part.starts_with(b"pool") {
        "may not follow in the history of the pool of media resources"
    } else if place.part.starts_with(b"slots") {
        "may not follow in the history of the registry of boxes"
    } else {
        "is not what the lawful parts of the run give"
    }
}

// What a replay has at the place of a line.
fn say_replayed(
    notes: &mut Notes<'_>,
    line: u64,
    place: &Place<'_>,
    replayed: &[u8],
) -> Result<(), AllocError> {
    notes.begin(line)?;
    match line_like(replayed, place) {
        Some(wanted) => {
            notes.say("a replay has ")?;
            notes.quote(wanted)?;
            notes.say(" there\n")
        }
        None => notes.say("a replay has no line there\n"),
    }
}

// What stands at a line, which rule it breaks, and what a replay has there.
fn say_fault(
    notes: &mut Notes<'_>,
    report: &[u8],
    line: u64,
    rule: Option<&str>,
    replayed: &[u8],
) -> Result<(), AllocError> {
    notes.begin(line)?;
    let Some((text, place)) = line_of(report, line) else {
        return notes.say("the report has no such line, or no line feed behind it\n");
    };
    notes.quote(text)?;
    notes.say(" ")?;
    match rule {
        Some(rule) => notes.say(rule)?,
        None => notes.say(rule_of(&place))?,
    }
    notes.say("\n")?;
    say_replayed(notes, line, &place, replayed)
}

/// Lines that say what is wrong in the report of this name, which is wrong so with this line at fault. `replayed` is the report of
/// a replay of its script. `AllocError` comes from want of memory alone.
pub fn verdict_hints(
    alloc: Global,
    name: &str,
    report: &[u8],
    line: u64,
    fault: Fault,
    replayed: &[u8],
) -> Result<Vec<u8>, AllocError> {
    let mut notes = Notes {
        name,
        lines: Vec::new(alloc),
    };
    match fault {
        Fault::Form => say_fault(
            &mut notes,
            report,
            line,
            Some("is no line that a report of this script has here"),
            replayed,
        )?,
        Fault::Lawless => say_fault(&mut notes, report, line, None, replayed)?,
        Fault::Order => {
            notes.begin(line)?;
            notes.say("each part is lawful, but the script's order makes another run\n")?;
            let first = first_difference(report, replayed);
            let rule = "is the first line that a replay does not have";
            say_fault(&mut notes, report, first, Some(rule), replayed)?;
        }
    }
    Ok(notes.lines)
}
