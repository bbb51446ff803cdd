// The lines of a report, each by the form of its place.

use report_text::Line;

/// Where in a report the next line stands.
#[derive(Clone, Copy, Debug, PartialEq, Eq)]
pub enum Section {
    /// Before the first line.
    Start,
    /// So many callers were named, and the last of them has so many results.
    Callers { callers: u64, results: u64 },
    /// So many codecs were named, and the last of them has so many entries.
    Codecs { codecs: u64, entries: u64 },
    /// The pool of media has so many entries.
    Pool { entries: u64 },
    /// The registry has so many entries.
    Slots { entries: u64 },
    Held,
    /// Behind the last line.
    Ended,
}

/// The lines of a report where each has its form, or the number, from 1, of the first that has not.
#[derive(Debug, PartialEq, Drop)]
pub enum Forms {
    Lines(Vec<Line>),
    Bad(u64),
}
