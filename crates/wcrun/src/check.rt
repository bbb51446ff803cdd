// A report, judged by its script.
ghost use Rattle.std.specs.Prelude.{◌≡◌, ◌≤◌, IfOk, IfErr, IfSome, Some, map, length};
ghost use Rattle.report_check.specs.declared.verdict.Verdict.TheVariants as verdict;
ghost use Rattle.report_check.specs.Verdict.{IfWrong, IsLineAtFault, IsRight};
ghost use Rattle.run_ranges.specs.Ranges.{AreWithin};
ghost use Rattle.wcrun.specs.Headline.{reading, IsAsked};
ghost use Rattle.wcrun.specs.Judged.{IsJudgedAs};
ghost use Rattle.wcrun.specs.Stops.{MayStop, MayStopReport};
ghost use Rattle.wcrun.specs.Words.{to_check};

use crate::command::Mode;
use crate::prepare::prepare;
use bytes_laws::spelled_is_within;
use coder_api::Coder;
use report_check::{Verdict, check};
use script_types::{Counted, Fault, Stop, unread};
use std::alloc::Global;
use wc_base::{FileFault, Files, NoMemory};

// The most bytes of a report.
const LIMIT: u64 = 268_435_456;

/// The bytes of the report of this name.
pub(crate) fn read_report<F: Files>(
    alloc: Global,
    name: &str,
    files: &mut F,
) -> Result<Vec<u8>, Stop<Fault>>
    ensures kept { F.content files.new ≡ F.content files.old }
    ensures ok { IfOk result (λ v. IfSome (F.content files.old) (λ held. held name.now ≡ Some v.items)) }
    ensures few { IfOk result (λ v. length v.items ≤ 268435456) }
    ensures stop { IfErr result (λ e. MayStopReport (F.content files.old) name.now
        (F.faults files.old) (F.faults files.new)
        (F.bytes_read files.old) (F.bytes_read files.new)
        (F.failed_names files.old) (F.failed_names files.new) e) }
{
    match files.read_all(alloc, name, LIMIT) {
        Ok(bytes) => Ok(bytes),
        Err(FileFault::Failed) => Err(unread(alloc, name)),
        Err(FileFault::TooLong) => Err(Stop::Fault(Fault::TooMany(Counted::Report))),
        Err(FileFault::NoMemory) => Err(Stop::NoMemory),
    }
}

/// The verdict on the report of this name, by the script of the other name and by coders of which there are these boxes.
#[tactic(auto, using(crate::proofs::Judging::script_fails, crate::proofs::Judging::report_fails, crate::proofs::Judging::judged))]
pub(crate) fn judge<F: Files, C: Coder>(
    alloc: Global,
    script: &str,
    report: &str,
    files: &mut F,
    coders: Vec<C>,
) -> Result<Verdict, Stop<Fault>>
    ensures ok { IfOk result (IsJudgedAs (reading (to_check script.now report.now) (F.content files.old)
        (F.faults files.old) (F.faults files.new)
        (F.bytes_read files.old) (F.bytes_read files.new)
        (F.failed_names files.old) (F.failed_names files.new)) (map C.coder coders.items)) }
    ensures stop { IfErr result (λ e. MayStop (reading (to_check script.now report.now) (F.content files.old)
        (F.faults files.old) (F.faults files.new)
        (F.bytes_read files.old) (F.bytes_read files.new)
        (F.failed_names files.old) (F.failed_names files.new)) e) }
{
    spelled_is_within();
    // The law asks for fewer boxes than 2^64.
    let _boxes = coders.len();
    let prepared = match prepare(alloc, Mode::InOrder, script, files) {
        Ok(prepared) => prepared,
        Err(stop) => return Err(stop),
    };
    let bytes = match read_report(alloc, report, files) {
        Ok(bytes) => bytes,
        Err(stop) => return Err(stop),
    };
    let (script, media) = (&prepared.script, &prepared.media);
    match check(alloc, script, media, coders, bytes.as_slice()) {
        Ok(verdict) => Ok(verdict),
        Err(NoMemory) => Err(Stop::NoMemory),
    }
}
