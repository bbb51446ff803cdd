// Whether bytes are the report of a run of a script.
ghost use Rattle.std.specs.Prelude.{◌≡◌, IfOk, IsSome, None, map, length};
ghost use Rattle.report_check.specs.Verdict.{IsRight, IsLineAtFault, IsUnlawful, IfWrong};
ghost use Rattle.report_check.specs.declared.verdict.Verdict.TheVariants as verdict;
ghost use Rattle.report_reader.specs.Told.{IsTold};
ghost use Rattle.run_model.specs.Fits.{IsLegalRun, FitsInOrder};
ghost use Rattle.run_model.specs.Missing.{missing_in};
ghost use Rattle.run_ranges.specs.Ranges.{AreWithin};
ghost use Rattle.trace_text.specs.Report.{report_of};

use crate::ends::ends_of;
use crate::part::first_line;
use crate::verdict::Verdict;
use coder_api::Coder;
use lawful_part::{Lender, lawful};
use report_reader::{ReportFault, legal_runs_are_told, read_report, report_text};
use run_model::Run;
use script_types::Script;
use std::alloc::Global;
use wc_base::{List, NoMemory};
use wc_chunk::Chunk;
use wc_replay::{listed_ends_make_one_run, replay_with};

// Whether the run whose report the bytes are is legal and follows the script's order.
fn compare<C: Coder>(
    alloc: Global,
    script: &Script,
    media: &[List<Chunk>],
    coders: Vec<C>,
    run: Run,
    report: &[u8],
) -> Result<Verdict, NoMemory>
    requires order { IsSome script.now.order }
    requires files { length media.now ≡ length script.now.chunk_files }
    requires chunks { missing_in script.now media.now ≡ None }
    requires text { report.now ≡ report_of script.now run }
    requires told { IsTold script.now media.now run }
    ensures right { IfOk result (λ v. v ≡ verdict.Right
        → IsRight script.now media.now (map C.coder coders.items) report.now) }
    ensures only { IsLegalRun script.now run
        → FitsInOrder script.now media.now (map C.coder coders.items) run
        → IfOk result (λ v. v ≡ verdict.Right) }
    ensures line { IfOk result (λ v. IfWrong v
        (IsUnlawful script.now media.now (map C.coder coders.items) report.now)) }
{
    listed_ends_make_one_run();
    let ends = ends_of(alloc, run.codecs.as_slice())?;
    let mut lender = Lender::of(coders);
    let part = lawful(alloc, script, run, &mut lender)?;
    let again = replay_with(alloc, script, media, lender.into_coders(), &ends)?;
    let text = report_text(alloc, script, &again)?;
    if text.as_slice() == report {
        return Ok(Verdict::Right);
    }
    let text = report_text(alloc, script, &part)?;
    let line = first_line(&text, report);
    Ok(Verdict::Wrong { line })
}

/// Whether bytes are the report of a run of this script that is legal, fits the script and follows its order, with these
/// coders. `media` has the chunks of each of the script's chunk files, and each chunk that a step takes is there. The script
/// has an order.
///
/// `Right` is answered exactly where they are (`IsRight`), unless memory is wanted: the script is replayed, with want of memory at
/// just the ends that say so in the report. `Wrong` names a line, from 1 (`IsLineAtFault`). That is the first that `read_report`
/// finds at fault. Where it finds none, it is the first line in which the bytes differ from the report of the run's lawful
/// part: of an entry of a codec, of an output, or of an entry of the pool or of the registry. Where these are the same, it is the
/// last line. `NoMemory` comes from want of memory alone.
pub fn check<C: Coder>(
    alloc: Global,
    script: &Script,
    media: &[List<Chunk>],
    coders: Vec<C>,
    report: &[u8],
) -> Result<Verdict, NoMemory>
    requires order { IsSome script.now.order }
    requires files { length media.now ≡ length script.now.chunk_files }
    requires chunks { missing_in script.now media.now ≡ None }
    ensures right { IfOk result (λ v. v ≡ verdict.Right
        → IsRight script.now media.now (map C.coder coders.items) report.now) }
    ensures only { AreWithin script.now media.now (map C.coder coders.items)
        → IsRight script.now media.now (map C.coder coders.items) report.now
        → IfOk result (λ v. v ≡ verdict.Right) }
    ensures line { IfOk result (λ v. IfWrong v
        (IsLineAtFault script.now media.now (map C.coder coders.items) report.now)) }
{
    legal_runs_are_told();
    let _data = script.data();
    match read_report(alloc, script, media, report) {
        Ok(run) => compare(alloc, script, media, coders, run, report),
        Err(ReportFault::BadLine { line }) => Ok(Verdict::Wrong { line }),
        Err(ReportFault::NoMemory) => Err(NoMemory),
    }
}
