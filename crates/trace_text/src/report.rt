// A report, written to a sink line by line.
ghost use Rattle.std.specs.Prelude.{◌≢◌, IfOk, Err, flat_map};
ghost use Rattle.report_text.specs.Text.{line_text};
ghost use Rattle.std.specs.Bool.{then_some};
ghost use Rattle.trace_text.specs.Report.{report_of};
ghost use Rattle.trace_text.specs.Behind.{TakesText};
ghost use Rattle.trace_text.specs.Written.{Writes};

use crate::lines::RunLines;
use report_text::push_line;
use run_model::Run;
use script_types::{Script, ScriptData};
use std::alloc::{AllocError, Global};
use wc_base::{Failed, NoMemory as WantOfMemory, Sink};

/// Why a report was not written whole.
#[derive(Clone, Copy, Debug, PartialEq, Eq)]
pub enum WriteFault {
    /// The sink did not take a line; its count of faults rose.
    Failed,
    NoMemory,
}

impl From<Failed> for WriteFault {
    ghost use Rattle.std.specs.Prelude.{◌≡◌};
    ghost use Rattle.trace_text.specs.declared.report.WriteFault.TheVariants as fault;

    ghost from_gives = { λ _ e. e ≡ fault.Failed };

    fn from(_: Failed) -> WriteFault {
        WriteFault::Failed
    }
}

impl From<AllocError> for WriteFault {
    ghost use Rattle.std.specs.Prelude.{◌≡◌};
    ghost use Rattle.trace_text.specs.declared.report.WriteFault.TheVariants as fault;

    ghost from_gives = { λ _ e. e ≡ fault.NoMemory };

    fn from(_: AllocError) -> WriteFault {
        WriteFault::NoMemory
    }
}

impl From<WantOfMemory> for WriteFault {
    ghost use Rattle.std.specs.Prelude.{◌≡◌};
    ghost use Rattle.trace_text.specs.declared.report.WriteFault.TheVariants as fault;

    ghost from_gives = { λ _ e. e ≡ fault.NoMemory };

    fn from(_: WantOfMemory) -> WriteFault {
        WriteFault::NoMemory
    }
}

// Puts the text of the next line in the place of the last one's, if a line is left.
fn next_text(
    alloc: Global,
    script: &ScriptData,
    lines: &mut RunLines,
    text: &mut Vec<u8>,
) -> Result<bool, WriteFault>
    ensures next { IfOk result
        (λ more. TakesText script.now lines.old (then_some more text.new.items) lines.new) }
    ensures failed { result ≢ Err WriteFault.Failed }
{
    let Some(line) = lines.next(alloc)? else {
        return Ok(false);
    };
    text.clear();
    push_line(text, script, &line)?;
    Ok(true)
}

// Each line that is left, one after another, over one memory for their texts.
#[tactic(auto, using(crate::proofs::Steps::so_far))]
fn write_lines<S: Sink>(
    alloc: Global,
    script: &ScriptData,
    lines: &mut RunLines,
    sink: &mut S,
) -> Result<(), WriteFault>
    ensures { Writes result (flat_map (line_text script.now) lines.old)
        (S.told sink.old) (S.told sink.new) (S.faults sink.old) (S.faults sink.new) }
{
    let mut text = Vec::new(alloc);
    while next_text(alloc, script, lines, &mut text)? {
        sink.write_all(text.as_slice())?;
    }
    Ok(())
}

/// Appends the report of a run of this script, one write for each line.
///
/// After an `Err` a beginning of the report was appended: `Failed` comes only where the sink's count of faults rose,
/// `NoMemory` from want of memory for a line.
pub fn write_report<S: Sink>(
    alloc: Global,
    script: &Script,
    run: &Run,
    sink: &mut S,
) -> Result<(), WriteFault>
    ensures { Writes result (report_of script.now run.now)
        (S.told sink.old) (S.told sink.new) (S.faults sink.old) (S.faults sink.new) }
{
    let mut lines = RunLines::of(run);
    write_lines(alloc, script.data(), &mut lines, sink)
}
