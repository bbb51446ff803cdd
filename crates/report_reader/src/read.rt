// A report is read back.
ghost use Rattle.std.specs.Prelude.{◌≡◌, IfOk, IfErr, IsTrue};
ghost use Rattle.script_types.specs.Sound.{is_sound};
ghost use Rattle.trace_text.specs.Report.{report_of};
ghost use Rattle.report_reader.specs.Told.{IsTold};
ghost use Rattle.report_reader.specs.Fault.{IsRead, IsFault, Gives};

use crate::compare::first_difference;
use crate::fault::ReportFault;
use crate::forms::Forms;
use crate::page::report_text;
use crate::reading::read_forms;
use crate::run::run_of;
use report_lines::{lines_are_read_again, lines_that_are_read_fit};
use run_model::Run;
use script_types::Script;
use std::alloc::Global;
use wc_base::List;
use wc_chunk::Chunk;

// The run, or the line at fault.
fn run_or_fault(
    alloc: Global,
    script: &Script,
    media: &[List<Chunk>],
    bytes: &[u8],
) -> Result<Run, ReportFault>
    ensures ok { IfOk result (IsRead script.now media.now bytes.now) }
    ensures told { IfOk result (λ run. IsTold script.now media.now run) }
    ensures bad { IfErr result (IsFault script.now media.now bytes.now) }
    ensures sound { IsTrue (is_sound script.now) }
{
    lines_that_are_read_fit();
    lines_are_read_again();
    match read_forms(alloc, script.data(), bytes)? {
        Forms::Bad(line) => Err(ReportFault::BadLine { line }),
        Forms::Lines(lines) => {
            let run = run_of(alloc, script.data(), media, &lines)?;
            let again = report_text(alloc, script, &run)?;
            match first_difference(&again, bytes) {
                Some(line) => Err(ReportFault::BadLine { line }),
                None => Ok(run),
            }
        }
    }
}

/// Reads a report of a run of this script back. `media` has the chunks of each of its chunk files.
///
/// Reading stops at the first line that has not its form. Where all lines have theirs, the run that they show is written
/// again, and the bytes have to be its report. `BadLine` names the line, from 1, at which reading stopped, or else the
/// first in which the two texts differ; the bytes are then the report of no run that a report tells (`IsTold`). So `Ok` is
/// answered exactly where they are the report of such a run, unless memory is wanted. `NoMemory` comes from want of memory
/// alone. The format and the line at fault are our choice.
pub fn read_report(
    alloc: Global,
    script: &Script,
    media: &[List<Chunk>],
    bytes: &[u8],
) -> Result<Run, ReportFault>
    // What is read has just this report, and its report tells it.
    ensures ok { IfOk result (λ run. bytes.now ≡ report_of script.now run) }
    ensures told { IfOk result (λ run. IsTold script.now media.now run) }
    // A run that its report tells is read, unless memory is wanted.
    ensures only { (run : Run) → IsTold script.now media.now run
        → bytes.now ≡ report_of script.now run → Gives result run }
    // A refusal names the line at fault.
    ensures bad { IfErr result (IsFault script.now media.now bytes.now) }
{
    lines_are_read_again();
    run_or_fault(alloc, script, media, bytes)
}
