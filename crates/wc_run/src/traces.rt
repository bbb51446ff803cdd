// What a run recorded.
ghost use Rattle.std.specs.Prelude.{◌≡◌, ◌++◌, IfOk, OnOk, map};
ghost use Rattle.codec_model.specs.Shown.{shown_of};
ghost use Rattle.wc_run.specs.Traces.{trace_of, IsLeftBy};

use codec_media::HoldingCore;
use codec_model::{Showing, Shown};
use coder_api::Coder;
use desk_run::Finished;
use run_model::{CallerTrace, CodecTrace, Run};
use segmented_list::{SegmentedList, SegmentedVec};
use std::alloc::Global;
use wc_base::{List, NoMemory, try_push};

fn push_shown(
    alloc: Global,
    showings: Vec<Showing>,
    shown: &mut SegmentedVec<Shown>,
) -> Result<(), NoMemory>
    ensures { OnOk result (shown.new.items ≡ shown.old.items ++ map shown_of showings.items) }
{
    for showing in showings {
        shown.try_push(showing.into_shown(alloc)?)?;
    }
    Ok(())
}

// What each of a codec's entries showed.
fn all_shown(
    alloc: Global,
    showings: SegmentedList<Showing>,
) -> Result<SegmentedList<Shown>, NoMemory>
    ensures { IfOk result (λ xs. xs ≡ map shown_of showings) }
{
    let mut shown = SegmentedVec::new(alloc);
    for segment in showings.into_segments() {
        push_shown(alloc, segment.into_items(), &mut shown)?;
    }
    Ok(SegmentedList::of(shown))
}

// A codec's history, and what its entries showed.
fn codec_trace<C: Coder>(alloc: Global, codec: HoldingCore<C>) -> Result<CodecTrace, NoMemory>
    ensures { IfOk result (λ t. t ≡ trace_of codec) }
{
    let core = codec.into_core();
    let opening = core.opening();
    let (entries, showings, _) = core.into_parts();
    let shown = all_shown(alloc, showings)?;
    Ok(CodecTrace {
        opening,
        entries,
        shown,
    })
}

fn codec_traces<C: Coder>(
    alloc: Global,
    codecs: Vec<HoldingCore<C>>,
) -> Result<Vec<CodecTrace>, NoMemory>
    ensures { IfOk result (λ traces. traces.items ≡ map trace_of codecs.items) }
{
    let mut traces = Vec::new(alloc);
    for codec in codecs {
        let trace = codec_trace(alloc, codec)?;
        try_push(&mut traces, trace)?;
    }
    Ok(traces)
}

/// What a desk leaves, with what the callers' steps came to.
pub(crate) fn run_of<C: Coder>(
    alloc: Global,
    callers: Vec<CallerTrace>,
    left: Finished<C>,
) -> Result<Run, NoMemory>
    ensures { IfOk result (IsLeftBy callers.items left) }
{
    let Finished {
        codecs,
        slots,
        pool,
    } = left;
    let held = pool.held();
    Ok(Run {
        callers: List::of(callers),
        codecs: List::of(codec_traces(alloc, codecs)?),
        pool: List::of(pool.into_entries()),
        slots: List::of(slots.into_entries()),
        held,
    })
}
