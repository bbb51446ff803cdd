// What a person is told on standard error, beside what `top` wrote. No clause speaks of it: it reads the files again, and
// decides nothing.

use crate::check::read_report;
use crate::codecs::coder_boxes;
use crate::command::{Mode, Verb, command_of};
use crate::help::{HELP, VERSION};
use crate::prepare::prepare;
use crate::probe::probe;
use crate::wrong::wrong_hints;
use coder_api::Coder;
use script_hints::{fault_hints, member_warnings};
use script_types::{Fault, Stop};
use std::alloc::Global;
use std::io::{self, Read};
use std::{fs, rt};
use wc_base::{Files, SystemFiles};
use wc_demux::read_media_file;

// The most bytes of a script, and of a media file.
const MOST_SCRIPT: u64 = 16_777_216;

const MOST_FILE: u64 = 268_435_456;

fn write(rt: &impl Eprint, lines: &[u8]) {
    if let Ok(text) = std::str::from_utf8(lines) {
        let _ = eprint!(rt; "{text}");
    }
}

// Why the system does not read a file: the failed opening, or the failed first read.
fn why_unread<R: rt::Files>(rt: &R, name: &str) -> io::Result<usize> {
    let mut file = fs::open(rt, name)?;
    let mut byte = [0];
    file.read(&mut byte)
}

fn tell_unread<R: rt::Files + Eprint>(rt: &R, name: &str) {
    if let Err(why) = why_unread(rt, name) {
        let _ = eprintln!(rt; "{name}: {why}");
    }
}

// How many chunks a media file has.
fn chunk_count<F: Files>(alloc: Global, files: &mut F, name: &str) -> Option<usize> {
    let Ok(bytes) = files.read_all(alloc, name, MOST_FILE) else {
        return None;
    };
    match read_media_file(alloc, &bytes) {
        Ok(medium) => Some(medium.into_chunks().len()),
        Err(_) => None,
    }
}

// How many chunks the file has that lacks one.
fn held_by<F: Files>(alloc: Global, files: &mut F, fault: &Fault) -> Option<usize> {
    match fault {
        Fault::NoIndex { name, place: _ } => chunk_count(alloc, files, name.as_str()),
        _ => None,
    }
}

// The fault for which the script in this file is not replayed, or for which its report of this name is not read.
fn fault_of_check<F: Files>(
    alloc: Global,
    files: &mut F,
    name: &str,
    report: &str,
) -> Option<Fault> {
    if let Err(Stop::Fault(fault)) = prepare(alloc, Mode::InOrder, name, files) {
        return Some(fault);
    }
    match read_report(alloc, report, files) {
        Err(Stop::Fault(fault)) => Some(fault),
        _ => None,
    }
}

// The fault for which the script in this file was not run, or for which the media file has no line.
fn fault_of<F: Files>(
    alloc: Global,
    files: &mut F,
    verb: Verb,
    name: &str,
    report: &str,
) -> Option<Fault> {
    match verb {
        Verb::Run(mode) => match prepare(alloc, mode, name, files) {
            Err(Stop::Fault(fault)) => Some(fault),
            _ => None,
        },
        Verb::Probe => match probe(alloc, name, files) {
            Err(Stop::Fault(fault)) => Some(fault),
            _ => None,
        },
        Verb::Check => fault_of_check(alloc, files, name, report),
        Verb::Load(_) => None,
    }
}

// Tells of the fault, and whether there is a script that is JSON all the same.
fn tell_fault<R: rt::Files + Eprint>(
    rt: &R,
    alloc: Global,
    verb: Verb,
    name: &str,
    report: &str,
) -> bool {
    let mut files = SystemFiles::new(alloc, rt);
    let Some(fault) = fault_of(alloc, &mut files, verb, name, report) else {
        return false;
    };
    if let Fault::Unread { name } = &fault {
        tell_unread(rt, name.as_str());
        return false;
    }
    let held = held_by(alloc, &mut files, &fault);
    // of a script above its limit nothing is looked at
    let text = match verb {
        Verb::Run(_) | Verb::Check => files
            .read_all(alloc, name, MOST_SCRIPT)
            .unwrap_or(Vec::new(alloc)),
        Verb::Probe | Verb::Load(_) => Vec::new(alloc),
    };
    if let Ok(lines) = fault_hints(alloc, name, &text, &fault, held) {
        write(rt, &lines);
    }
    matches!(verb, Verb::Run(_) | Verb::Check) && fault != Fault::NotJson
}

fn warn<R: rt::Files + Eprint>(rt: &R, alloc: Global, name: &str) {
    let mut files = SystemFiles::new(alloc, rt);
    let Ok(text) = files.read_all(alloc, name, MOST_SCRIPT) else {
        return;
    };
    if let Ok(lines) = member_warnings(alloc, name, &text) {
        write(rt, &lines);
    }
}

// Tells what is wrong in the report of this name, by the script of the other name, with coders that judge it.
fn tell_judged<R: rt::Files + Eprint, C: Coder>(
    rt: &R,
    alloc: Global,
    name: &str,
    report: &str,
    judging: Vec<C>,
) {
    let replaying = coder_boxes!(alloc, return);
    let mut files = SystemFiles::new(alloc, rt);
    if let Some(lines) = wrong_hints(alloc, name, report, &mut files, judging, replaying) {
        write(rt, &lines);
    }
}

fn tell_wrong<R: rt::Files + Eprint>(rt: &R, alloc: Global, name: &str, report: &str) {
    let judging = coder_boxes!(alloc, return);
    tell_judged(rt, alloc, name, report, judging);
}

/// Tells what more there is to say of a command that ended with this status.
pub fn tell<R: rt::Files + Eprint>(rt: &R, alloc: Global, words: &[String], status: u8) {
    if status == 5 {
        let _ = eprintln!(rt;
            "wcrun: standard output did not take what was written; what stands there is a beginning of it"
        );
        return;
    }
    let Some((verb, name, report)) = command_of(words) else {
        let _ = eprint!(rt; "wcrun {VERSION}\n\n{HELP}");
        return;
    };
    if status == 1 {
        tell_wrong(rt, alloc, name, report);
    }
    let warns = match status {
        3 | 4 | 7 => tell_fault(rt, alloc, verb, name, report),
        _ => status < 2 && matches!(verb, Verb::Run(_) | Verb::Check),
    };
    if warns {
        warn(rt, alloc, name);
    }
}
