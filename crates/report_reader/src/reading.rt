// The lines of a report are read, each by the form of its place.
ghost use Rattle.std.specs.Prelude.{◌≡◌, ◌≢◌, ◌<◌, ◌+◌, ◌^◌, IfOk, IfErr, IsTrue, ◌↔◌, Some, None, [], length};
ghost use Rattle.report_reader.specs.Form as spec;
ghost use Rattle.report_reader.specs.Fault.{IsForms};

use crate::forms::{Forms, Section};
use report_lines::{FieldFault, line_at, lines_are_read_again};
use report_text::Line;
use script_types::ScriptData;
use std::alloc::{AllocError, Global};

// Behind all lines of so many codecs stands the next codec, or the pool.
fn next_part(codecs: u64, k: u64, line: &Line) -> Option<Section>
    ensures { result ≡ spec.next_part codecs k line.now }
{
    match line {
        Line::Codec { codec, opening: _ } => {
            if *codec == k && k < codecs {
                Some(Section::Codecs {
                    codecs: k + 1,
                    entries: 0,
                })
            } else {
                None
            }
        }
        Line::Pool => {
            if k == codecs {
                Some(Section::Pool { entries: 0 })
            } else {
                None
            }
        }
        _ => None,
    }
}

// The section behind a line that stands among the callers.
fn next_caller(callers: u64, codecs: u64, k: u64, n: u64, line: &Line) -> Option<Section>
    requires { n + 1 < 2 ^ 64 }
    ensures { result ≡ spec.next callers codecs (Section.Callers k n) line.now }
{
    match line {
        Line::Caller(caller) => {
            if *caller == k && k < callers {
                Some(Section::Callers {
                    callers: k + 1,
                    results: 0,
                })
            } else {
                None
            }
        }
        Line::Result { step, answer: _ } => {
            if 0 < k && *step == n {
                Some(Section::Callers {
                    callers: k,
                    results: n + 1,
                })
            } else {
                None
            }
        }
        _ => {
            if k == callers {
                next_part(codecs, 0, line)
            } else {
                None
            }
        }
    }
}

// The section behind a line that stands among the codecs.
fn next_codec(callers: u64, codecs: u64, k: u64, n: u64, line: &Line) -> Option<Section>
    requires { n + 1 < 2 ^ 64 }
    ensures { result ≡ spec.next callers codecs (Section.Codecs k n) line.now }
{
    match line {
        Line::Entry { place, entry: _ } => {
            if *place == n {
                Some(Section::Codecs {
                    codecs: k,
                    entries: n + 1,
                })
            } else {
                None
            }
        }
        Line::Event(_) => Some(Section::Codecs {
            codecs: k,
            entries: n,
        }),
        _ => next_part(codecs, k, line),
    }
}

// The section behind a line that stands among the pool's entries.
fn next_reference(callers: u64, codecs: u64, n: u64, line: &Line) -> Option<Section>
    requires { n + 1 < 2 ^ 64 }
    ensures { result ≡ spec.next callers codecs (Section.Pool n) line.now }
{
    match line {
        Line::Reference { place, entry: _ } => {
            if *place == n {
                Some(Section::Pool { entries: n + 1 })
            } else {
                None
            }
        }
        Line::Slots => Some(Section::Slots { entries: 0 }),
        _ => None,
    }
}

// The section behind a line that stands among the registry's entries.
fn next_slot(callers: u64, codecs: u64, n: u64, line: &Line) -> Option<Section>
    requires { n + 1 < 2 ^ 64 }
    ensures { result ≡ spec.next callers codecs (Section.Slots n) line.now }
{
    match line {
        Line::Slot { place, entry: _ } => {
            if *place == n {
                Some(Section::Slots { entries: n + 1 })
            } else {
                None
            }
        }
        Line::Held(_) => Some(Section::Held),
        _ => None,
    }
}

// The section behind a line, where the line may stand.
fn next(callers: u64, codecs: u64, section: Section, line: &Line) -> Option<Section>
    requires { spec.next_number section + 1 < 2 ^ 64 }
    ensures { result ≡ spec.next callers codecs section line.now }
{
    match section {
        Section::Start => match line {
            Line::Header => Some(Section::Callers {
                callers: 0,
                results: 0,
            }),
            _ => None,
        },
        Section::Callers {
            callers: k,
            results,
        } => next_caller(callers, codecs, k, results, line),
        Section::Codecs { codecs: k, entries } => next_codec(callers, codecs, k, entries, line),
        Section::Pool { entries } => next_reference(callers, codecs, entries, line),
        Section::Slots { entries } => next_slot(callers, codecs, entries, line),
        Section::Held => match line {
            Line::End => Some(Section::Ended),
            _ => None,
        },
        Section::Ended => None,
    }
}

// The line in front, the bytes behind it, and the section there.
#[tactic(auto, unfolding(crate::specs::Form::form_at))]
fn form_at<'a>(
    alloc: Global,
    script: &ScriptData,
    section: Section,
    bytes: &'a [u8],
) -> Result<(Line, &'a [u8], Section), FieldFault>
    requires { spec.next_number section + 1 < 2 ^ 64 }
    ensures ok { IfOk result
        (λ x. spec.form_at script.now section bytes.now ≡ Some (x.0, x.1.now, x.2)) }
    ensures err { IfErr result
        (λ e. e ≢ FieldFault.NoMemory → spec.form_at script.now section bytes.now ≡ None) }
{
    let (line, rest) = line_at(alloc, script, bytes)?;
    let callers = script.callers.len() as u64;
    let codecs = script.codecs.len() as u64;
    let behind = next(callers, codecs, section, &line).ok_or(FieldFault::NoField)?;
    Ok((line, rest, behind))
}

/// The lines of a report, each by the form of its place.
pub fn read_forms(alloc: Global, script: &ScriptData, bytes: &[u8]) -> Result<Forms, AllocError>
    ensures { IfOk result (IsForms script.now bytes.now) }
{
    lines_are_read_again();
    let mut lines = Vec::new(alloc);
    let mut rest = bytes;
    let mut section = Section::Start;
    while !is_end(section, rest) {
        match form_at(alloc, script, section, rest) {
            Ok((line, behind, next)) => {
                lines.push(line)?;
                rest = behind;
                section = next;
            }
            Err(FieldFault::NoMemory) => return Err(AllocError),
            Err(FieldFault::NoField) => return Ok(Forms::Bad(lines.len() as u64 + 1)),
        }
    }
    Ok(Forms::Lines(lines))
}

fn is_end(section: Section, rest: &[u8]) -> bool
    ensures { IsTrue result ↔ ((section ≡ Section.Ended) × (rest.now ≡ [])) }
{
    match section {
        Section::Ended => rest.is_empty(),
        _ => false,
    }
}
