// What a person is told of a report that is wrong. No clause speaks of it: the report is judged and replayed again.
ghost use Rattle.std.specs.Prelude.{◌≡◌, IsSome, None, length};
ghost use Rattle.run_model.specs.Missing.{missing_in};

use crate::check::read_report as read_bytes;
use crate::command::Mode;
use crate::prepare::prepare;
use crate::prepared::Prepared;
use coder_api::Coder;
use report_check::{Verdict, check, ends_of};
use report_hints::{Fault, verdict_hints};
use report_reader::{ReportFault, read_report, report_text};
use std::alloc::Global;
use wc_base::Files;
use wc_replay::replay_with;

// How a report is wrong.
#[derive(Drop)]
struct Finding {
    line: u64,
    fault: Fault,
    /// The ends that say in it that memory was wanted.
    ends: Vec<(u32, u64)>,
}

// How many lines a report has.
fn line_count(report: &[u8]) -> u64 {
    let mut count: u64 = 0;
    for byte in report {
        if *byte == b'\n' {
            count = count.saturating_add(1);
        }
    }
    count
}

// The line at fault of a report whose run can be read: its last line where each part is lawful.
fn line_at_fault<C: Coder>(
    alloc: Global,
    prepared: &Prepared,
    coders: Vec<C>,
    report: &[u8],
) -> Option<(u64, Fault)>
    requires order { IsSome prepared.now.script.order }
    requires each { length prepared.now.media.items ≡ length prepared.now.script.chunk_files }
    requires there { missing_in prepared.now.script prepared.now.media.items ≡ None }
{
    match check(alloc, &prepared.script, &prepared.media, coders, report) {
        Ok(Verdict::Wrong { line }) if line == line_count(report) => Some((line, Fault::Order)),
        Ok(Verdict::Wrong { line }) => Some((line, Fault::Lawless)),
        _ => None,
    }
}

fn find_fault<C: Coder>(
    alloc: Global,
    prepared: &Prepared,
    coders: Vec<C>,
    report: &[u8],
) -> Option<Finding>
    requires order { IsSome prepared.now.script.order }
    requires each { length prepared.now.media.items ≡ length prepared.now.script.chunk_files }
    requires there { missing_in prepared.now.script prepared.now.media.items ≡ None }
{
    match read_report(alloc, &prepared.script, &prepared.media, report) {
        Ok(run) => {
            let ends = ends_of(alloc, run.codecs.as_slice()).ok()?;
            let (line, fault) = line_at_fault(alloc, prepared, coders, report)?;
            Some(Finding { line, fault, ends })
        }
        Err(ReportFault::BadLine { line }) => Some(Finding {
            line,
            fault: Fault::Form,
            ends: Vec::new(alloc),
        }),
        Err(ReportFault::NoMemory) => None,
    }
}

/// Lines on the report of this name, which is wrong, by the script of the other name. One set of coders judges it, and the other
/// replays the script.
pub(crate) fn wrong_hints<F: Files, C: Coder, D: Coder>(
    alloc: Global,
    script: &str,
    name: &str,
    files: &mut F,
    judging: Vec<C>,
    replaying: Vec<D>,
) -> Option<Vec<u8>> {
    let prepared = prepare(alloc, Mode::InOrder, script, files).ok()?;
    let report = read_bytes(alloc, name, files).ok()?;
    let found = find_fault(alloc, &prepared, judging, &report)?;
    let (script, media) = (&prepared.script, &prepared.media);
    let run = replay_with(alloc, script, media, replaying, &found.ends).ok()?;
    let text = report_text(alloc, script, &run).ok()?;
    verdict_hints(alloc, name, &report, found.line, found.fault, &text).ok()
}
