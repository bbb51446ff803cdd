// The top call.
ghost use Rattle.std.specs.Prelude.{◌≡◌, ◌≤◌, ◌⊎◌, true, map, length, IfOk, IfErr, IsSome, List, None};
ghost use Rattle.run_model.specs.Fits.{IsLegalRun};
ghost use Rattle.run_model.specs.Missing.{missing_in};
ghost use Rattle.trace_text.specs.Report.{report_of};
ghost use Rattle.wcrun.specs.Words.{words_of, command_of, to_check, to_probe, to_run, IsInRange};
ghost use Rattle.wcrun.specs.declared.command.Mode.TheVariants as modes;
ghost use Rattle.wcrun.specs.declared.command.Verb.TheVariants as verb;
ghost use Rattle.wcrun.specs.Refusals.{status_of, line_of, usage_line, memory_line, wrong_line};
ghost use Rattle.work_moments.specs.Moments.{Telling};
ghost use Rattle.wcrun.specs.Headline.{reading, writing, IsRunBy, IsRunOf, Headline, Decides, IsComplete};
ghost use Rattle.wcrun.specs.Load.{Supply, supply_of, EndsLoad};
ghost use Rattle.wcrun.specs.Stops.{MayStop};
ghost use Rattle.wcrun.specs.Writing.{WritesText, WritesLine};

use crate::Refusal;
use crate::check::judge;
use crate::command::{Mode, Verb, command_of};
use crate::laws::files_have_one_outcome;
use crate::load::run_load;
use crate::prepare::prepare;
use crate::prepared::{Prepared, Ran};
use crate::probe::probe;
use codec_desk::{Clock, Gate};
use coder_api::Coder;
use report_check::Verdict;
use run_model::Run;
use script_types::{Fault, Script, Stop};
use std::alloc::Global;
use std::sync::Wait;
use std::thread::Threads;
use trace_text::{WriteFault, write_report};
use wc_base::{Files, NoMemory, Sink};
use wc_replay::replay;
use wc_run::run;

// The run of a script, in its order or with threads.
fn run_by<C: Coder, K: Clock + Send + Drop, G: Gate + Send + Drop, R: Threads + Wait + Sync>(
    rt: &R,
    alloc: Global,
    mode: Mode,
    prepared: &Prepared,
    coders: Vec<C>,
    clocks: Vec<K>,
    gates: Vec<G>,
) -> Result<Run, NoMemory>
    requires workers { IsInRange (verb.Run mode) }
    requires clocks { 34 ≤ length clocks.items }
    requires gates { 34 ≤ length gates.items }
    requires order { mode ≡ modes.InOrder → IsSome prepared.now.script.order }
    requires each { length prepared.now.media.items ≡ length prepared.now.script.chunk_files }
    requires there { missing_in prepared.now.script prepared.now.media.items ≡ None }
    ensures legal { IfOk result (λ run. IsLegalRun prepared.now.script run) }
    ensures fits { IfOk result (λ run. IsRunBy mode
        (supply_of (map C.coder coders.items) (map K.told clocks.items))
        (record { script = prepared.now.script; media = prepared.now.media.items }) run) }
{
    match mode {
        Mode::InOrder => replay(alloc, &prepared.script, &prepared.media, coders),
        Mode::Threads(workers) => {
            let (script, media) = (&prepared.script, &prepared.media);
            run(rt, alloc, script, media, coders, workers, clocks, gates)
        }
    }
}

// The run of the script in the file of this name.
fn ran<F: Files, C: Coder, K: Clock + Send + Drop, G: Gate + Send + Drop, R: Threads + Wait + Sync>(
    rt: &R,
    alloc: Global,
    mode: Mode,
    name: &str,
    files: &mut F,
    coders: Vec<C>,
    clocks: Vec<K>,
    gates: Vec<G>,
) -> Result<Ran, Stop<Fault>>
    requires workers { IsInRange (verb.Run mode) }
    requires clocks { 34 ≤ length clocks.items }
    requires gates { 34 ≤ length gates.items }
    ensures ok { IfOk result (λ d. IsRunOf mode (reading (to_run mode name.now) (F.content files.old)
        (F.faults files.old) (F.faults files.new)
        (F.bytes_read files.old) (F.bytes_read files.new)
        (F.failed_names files.old) (F.failed_names files.new))
        (supply_of (map C.coder coders.items) (map K.told clocks.items))
        (record { script = d.prepared.script; media = d.prepared.media.items }) d.run) }
    ensures stop { IfErr result (λ e. MayStop (reading (to_run mode name.now) (F.content files.old)
        (F.faults files.old) (F.faults files.new)
        (F.bytes_read files.old) (F.bytes_read files.new)
        (F.failed_names files.old) (F.failed_names files.new)) e) }
{
    let prepared = prepare(alloc, mode, name, files)?;
    let run = run_by(rt, alloc, mode, &prepared, coders, clocks, gates)?;
    Ok(Ran { prepared, run })
}

// Ends with the line of usage.
fn usage<S: Sink>(sink: &mut S) -> u8
    ensures { WritesLine 2 usage_line
        (writing (S.told sink.old) (S.told sink.new) (S.faults sink.old)
        (S.faults sink.new) result) }
{
    let line =
        b"usage: wcrun replay FILE | run FILE --workers N | load START N | check SCRIPT REPORT | probe FILE\n";
    match sink.write_all(line) {
        Ok(()) => 2,
        Err(_) => 5,
    }
}

// Ends for want of memory.
pub(crate) fn want_memory<S: Sink>(sink: &mut S) -> u8
    ensures { WritesLine 6 memory_line
        (writing (S.told sink.old) (S.told sink.new) (S.faults sink.old)
        (S.faults sink.new) result) }
{
    match sink.write_all(b"out of memory\n") {
        Ok(()) => 6,
        Err(_) => 5,
    }
}

// Ends with the line of a fault.
fn refuse<S: Sink>(alloc: Global, fault: Fault, sink: &mut S) -> u8
    ensures { WritesLine (status_of fault) (line_of fault)
        (writing (S.told sink.old) (S.told sink.new) (S.faults sink.old) (S.faults sink.new) result) }
{
    let refusal = Refusal(fault);
    let Ok(line) = format!(in alloc; "{refusal}") else {
        return want_memory(sink);
    };
    match sink.write_all(line.as_bytes()) {
        Ok(()) => refusal.status(),
        Err(_) => 5,
    }
}

// Ends with the report of a run.
#[tactic(auto, using(crate::proofs::Parts::nothing_yet))]
fn report<S: Sink>(alloc: Global, script: &Script, run: &Run, sink: &mut S) -> u8
    ensures { WritesText (report_of script.now run.now)
        (writing (S.told sink.old) (S.told sink.new) (S.faults sink.old) (S.faults sink.new) result) }
{
    match write_report(alloc, script, run, sink) {
        Ok(()) => 0,
        Err(WriteFault::Failed) => 5,
        Err(WriteFault::NoMemory) => match sink.write_all(b"out of memory\n") {
            Ok(()) => 6,
            Err(_) => 5,
        },
    }
}

// Ends with the report of the run of the script in the file of this name, or with the line of why there is none.
fn run_named<
    F: Files,
    S: Sink,
    C: Coder,
    K: Clock + Send + Drop,
    G: Gate + Send + Drop,
    R: Threads + Wait + Sync,
>(
    rt: &R,
    alloc: Global,
    mode: Mode,
    name: &str,
    files: &mut F,
    sink: &mut S,
    coders: Vec<C>,
    clocks: Vec<K>,
    gates: Vec<G>,
) -> u8
    requires workers { IsInRange (verb.Run mode) }
    requires clocks { 34 ≤ length clocks.items }
    requires gates { 34 ≤ length gates.items }
    ensures headline { Headline
        (reading (to_run mode name.now) (F.content files.old) (F.faults files.old) (F.faults files.new)
        (F.bytes_read files.old) (F.bytes_read files.new)
        (F.failed_names files.old) (F.failed_names files.new))
        (supply_of (map C.coder coders.items) (map K.told clocks.items))
        (writing (S.told sink.old) (S.told sink.new) (S.faults sink.old) (S.faults sink.new) result) }
    ensures decided { Decides
        (reading (to_run mode name.now) (F.content files.old) (F.faults files.old) (F.faults files.new)
        (F.bytes_read files.old) (F.bytes_read files.new)
        (F.failed_names files.old) (F.failed_names files.new))
        (supply_of (map C.coder coders.items) (map K.told clocks.items))
        (writing (S.told sink.old) (S.told sink.new) (S.faults sink.old) (S.faults sink.new) result) }
    ensures complete { IsComplete
        (reading (to_run mode name.now) (F.content files.old) (F.faults files.old) (F.faults files.new)
        (F.bytes_read files.old) (F.bytes_read files.new)
        (F.failed_names files.old) (F.failed_names files.new))
        (writing (S.told sink.old) (S.told sink.new) (S.faults sink.old) (S.faults sink.new) result) }
{
    // The law by which what the files hold decides the status.
    files_have_one_outcome();
    match ran(rt, alloc, mode, name, files, coders, clocks, gates) {
        Ok(done) => report(alloc, &done.prepared.script, &done.run, sink),
        Err(Stop::Fault(fault)) => refuse(alloc, fault, sink),
        Err(Stop::NoMemory) => want_memory(sink),
    }
}

// Ends with a text.
#[tactic(auto, using(crate::proofs::Parts::nothing_yet))]
pub(crate) fn tell<S: Sink>(text: &str, sink: &mut S) -> u8
    ensures { WritesText text.now
        (writing (S.told sink.old) (S.told sink.new) (S.faults sink.old) (S.faults sink.new) result) }
{
    match sink.write_all(text.as_bytes()) {
        Ok(()) => 0,
        Err(_) => 5,
    }
}

// Ends with the line of the media file of this name, or with the line of why there is none.
fn probe_named<F: Files, S: Sink>(alloc: Global, name: &str, files: &mut F, sink: &mut S) -> u8
    ensures headline { (supply : Supply) → Headline
        (reading (to_probe name.now) (F.content files.old) (F.faults files.old) (F.faults files.new)
        (F.bytes_read files.old) (F.bytes_read files.new)
        (F.failed_names files.old) (F.failed_names files.new)) supply
        (writing (S.told sink.old) (S.told sink.new) (S.faults sink.old) (S.faults sink.new) result) }
    ensures decided { (supply : Supply) → Decides
        (reading (to_probe name.now) (F.content files.old) (F.faults files.old) (F.faults files.new)
        (F.bytes_read files.old) (F.bytes_read files.new)
        (F.failed_names files.old) (F.failed_names files.new)) supply
        (writing (S.told sink.old) (S.told sink.new) (S.faults sink.old) (S.faults sink.new) result) }
    ensures complete { IsComplete
        (reading (to_probe name.now) (F.content files.old) (F.faults files.old) (F.faults files.new)
        (F.bytes_read files.old) (F.bytes_read files.new)
        (F.failed_names files.old) (F.failed_names files.new))
        (writing (S.told sink.old) (S.told sink.new) (S.faults sink.old) (S.faults sink.new) result) }
{
    // The law by which what the file holds decides the status.
    files_have_one_outcome();
    match probe(alloc, name, files) {
        Ok(line) => tell(line.as_str(), sink),
        Err(Stop::Fault(fault)) => refuse(alloc, fault, sink),
        Err(Stop::NoMemory) => want_memory(sink),
    }
}

// Ends with the line at fault in a report.
fn tell_fault<S: Sink>(alloc: Global, line: u64, sink: &mut S) -> u8
    ensures { WritesLine 1 (wrong_line line)
        (writing (S.told sink.old) (S.told sink.new) (S.faults sink.old) (S.faults sink.new) result) }
{
    let Ok(told) = format!(in alloc; "wrong: line {line}\n") else {
        return want_memory(sink);
    };
    match sink.write_all(told.as_bytes()) {
        Ok(()) => 1,
        Err(_) => 5,
    }
}

// Ends with the verdict on the report of this name, by the script of the other name, or with the line of why there is none.
fn check_named<F: Files, S: Sink, C: Coder>(
    alloc: Global,
    name: &str,
    report: &str,
    files: &mut F,
    sink: &mut S,
    coders: Vec<C>,
) -> u8
    ensures headline { (clocks : List Telling) → Headline
        (reading (to_check name.now report.now) (F.content files.old)
        (F.faults files.old) (F.faults files.new) (F.bytes_read files.old) (F.bytes_read files.new)
        (F.failed_names files.old) (F.failed_names files.new))
        (supply_of (map C.coder coders.items) clocks)
        (writing (S.told sink.old) (S.told sink.new) (S.faults sink.old) (S.faults sink.new) result) }
    ensures decided { (clocks : List Telling) → Decides
        (reading (to_check name.now report.now) (F.content files.old)
        (F.faults files.old) (F.faults files.new) (F.bytes_read files.old) (F.bytes_read files.new)
        (F.failed_names files.old) (F.failed_names files.new))
        (supply_of (map C.coder coders.items) clocks)
        (writing (S.told sink.old) (S.told sink.new) (S.faults sink.old) (S.faults sink.new) result) }
    ensures complete { IsComplete
        (reading (to_check name.now report.now) (F.content files.old)
        (F.faults files.old) (F.faults files.new) (F.bytes_read files.old) (F.bytes_read files.new)
        (F.failed_names files.old) (F.failed_names files.new))
        (writing (S.told sink.old) (S.told sink.new) (S.faults sink.old) (S.faults sink.new) result) }
{
    files_have_one_outcome();
    match judge(alloc, name, report, files, coders) {
        Ok(Verdict::Right) => tell("right\n", sink),
        Ok(Verdict::Wrong { line }) => tell_fault(alloc, line, sink),
        Err(Stop::Fault(fault)) => refuse(alloc, fault, sink),
        Err(Stop::NoMemory) => want_memory(sink),
    }
}

/// Carries out the command of these words, and gives the status with which the program ends.
///
/// `words` are those of the command line, without the program's name. `replay FILE` reads the script in FILE, replays it
/// with these coders, and writes the report of the run: status 0. `run FILE --workers N` does so with threads, and wants no
/// order. `probe FILE` reads the media file FILE, and writes the line that tells what it holds: status 0. `load START N` runs a
/// script that it draws with four workers, and writes a summary: status 0. `check SCRIPT REPORT` writes `right` where REPORT is the
/// report of a legal run of SCRIPT that follows its order: status 0; else the line at fault: status 1. Any other words are refused
/// with the line of usage: 2.
/// There are at least 34 clocks and 34 gates, one for each thread that there may be and one for what is left then.
/// A script file that is no JSON or has a fault, a script with no order that is replayed, a media file that is none or lacks a
/// chunk that is taken, give 3; a file that is not read 4; a count above its limit 7; each with one line that names the place.
/// Want of memory gives 6 and the line `out of memory`, also after a part of the report. A sink that fails gives 5, with no
/// further line.
pub fn top<
    F: Files,
    S: Sink,
    C: Coder,
    K: Clock + Send + Drop,
    G: Gate + Send + Drop,
    R: Threads + Wait + Sync,
>(
    rt: &R,
    alloc: Global,
    words: &[String],
    files: &mut F,
    sink: &mut S,
    coders: Vec<C>,
    clocks: Vec<K>,
    gates: Vec<G>,
) -> u8
    requires clocks { 34 ≤ length clocks.items }
    requires gates { 34 ≤ length gates.items }
    ensures headline { Headline
        (reading (command_of (words_of words.now)) (F.content files.old) (F.faults files.old) (F.faults files.new)
        (F.bytes_read files.old) (F.bytes_read files.new)
        (F.failed_names files.old) (F.failed_names files.new))
        (supply_of (map C.coder coders.items) (map K.told clocks.items))
        (writing (S.told sink.old) (S.told sink.new) (S.faults sink.old) (S.faults sink.new) result) }
    ensures decided { Decides
        (reading (command_of (words_of words.now)) (F.content files.old) (F.faults files.old) (F.faults files.new)
        (F.bytes_read files.old) (F.bytes_read files.new)
        (F.failed_names files.old) (F.failed_names files.new))
        (supply_of (map C.coder coders.items) (map K.told clocks.items))
        (writing (S.told sink.old) (S.told sink.new) (S.faults sink.old) (S.faults sink.new) result) }
    ensures complete { IsComplete
        (reading (command_of (words_of words.now)) (F.content files.old) (F.faults files.old) (F.faults files.new)
        (F.bytes_read files.old) (F.bytes_read files.new)
        (F.failed_names files.old) (F.failed_names files.new))
        (writing (S.told sink.old) (S.told sink.new) (S.faults sink.old) (S.faults sink.new) result) }
    ensures loaded { EndsLoad (command_of (words_of words.now)) result }
{
    match command_of(words) {
        Some((Verb::Run(mode), name, _)) => {
            run_named(rt, alloc, mode, name, files, sink, coders, clocks, gates)
        }
        Some((Verb::Probe, name, _)) => probe_named(alloc, name, files, sink),
        Some((Verb::Load(load), _, _)) => run_load(rt, alloc, load, sink, coders, clocks, gates),
        Some((Verb::Check, name, report)) => check_named(alloc, name, report, files, sink, coders),
        None => usage(sink),
    }
}
