// What is said of a report.

/// Whether bytes are the report of a run that is legal, fits its script and follows its order.
#[derive(Clone, Copy, Debug, PartialEq, Eq)]
pub enum Verdict {
    Right,
    /// They are not; the line with this number, from 1, is at fault.
    Wrong { line: u64 },
}
