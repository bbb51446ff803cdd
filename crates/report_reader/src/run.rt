// The run that lines show.
ghost use Rattle.std.specs.Prelude.{◌≡◌, IfOk};
ghost use Rattle.std.specs.List.{AllByRecursion};
ghost use Rattle.report_reader.specs.Fits.{FitsTrace};
ghost use Rattle.report_reader.specs.Read as spec;

use crate::build::{all_outputs_of, behind_first, callers_of, held_of, pool_of, slots_of};
use crate::known::Known;
use crate::tables::tables_of;
use crate::trace::codecs_of;
use report_text::Line;
use run_model::Run;
use script_types::ScriptData;
use std::alloc::Global;
use wc_base::{List, NoMemory};
use wc_chunk::Chunk;

/// The run of this script that the lines show, whatever they are. `media` has the chunks of each of its chunk files.
#[tactic(auto, unfolding(crate::specs::Read::run_of))]
pub fn run_of(
    alloc: Global,
    script: &ScriptData,
    media: &[List<Chunk>],
    lines: &[Line],
) -> Result<Run, NoMemory>
    ensures run { IfOk result (λ run. run ≡ spec.run_of script.now media.now lines.now) }
    // The promises whose ends it shows have numbers of 64 bits.
    ensures fits { IfOk result (λ run. AllByRecursion FitsTrace run.codecs) }
{
    let (callers, codec_lines) = callers_of(alloc, script.callers.len(), behind_first(lines))?;
    let count = script.codecs.len();
    let (outputs, rest) = all_outputs_of(alloc, count, codec_lines)?;
    let (pool, rest) = pool_of(alloc, behind_first(rest))?;
    let known = Known {
        callers: List::of(callers),
        outputs: List::of(outputs),
        pool: List::of(pool),
    };
    let tables = tables_of(alloc, script, &known)?;
    let codecs = codecs_of(alloc, script, media, &known, &tables, count, codec_lines)?;
    let rest = behind_first(rest);
    let slots = slots_of(alloc, rest)?;
    let Known {
        callers,
        outputs: _,
        pool,
    } = known;
    Ok(Run {
        callers,
        codecs: List::of(codecs),
        pool,
        slots: List::of(slots),
        held: held_of(rest),
    })
}
