// The part of a run that is lawful.
ghost use Rattle.std.specs.Prelude.{◌≡◌, ◌≤◌, IfOk, OnOk, None, true};
ghost use Rattle.script_types.specs.Sound.{is_sound};
ghost use Rattle.lawful_part.specs.Lawful.{lawful as the_lawful, lawful_at, lawful_trace, lawful_traces, pool_part, slots_part};

use codec_judge::{Lender, shown_by};
use codec_model::Opening;
use coder_api::{Coder, SlotEntry};
use legal_fronts::{legal_pool_entries, legal_slot_entries};
use run_model::{CodecTrace, Run};
use script_types::{CodecItem, Script, ScriptData};
use std::alloc::Global;
use wc_base::{List, NoMemory};
use wc_pool::PoolEntry;

// A codec's entries, with what its definition shows for them; no more is shown from the first on that is not legal.
fn judge_trace<C: Coder>(
    alloc: Global,
    item: &CodecItem,
    trace: &mut CodecTrace,
    lender: &mut Lender<C>,
) -> Result<(), NoMemory>
    requires low { 1 ≤ item.now.saturation }
    requires high { item.now.saturation ≤ 64 }
    requires back { lender.old.out ≡ None }
    ensures judged { OnOk result (trace.new ≡ lawful_trace lender.old.home item.now trace.old) }
    ensures same { OnOk result (lender.new ≡ lender.old) }
{
    let opening = Opening {
        kind: item.kind,
        saturation: item.saturation,
    };
    trace.shown = shown_by(alloc, lender, opening, &trace.entries)?;
    Ok(())
}

// The codec at this place is judged, if it is there.
fn judge_at<C: Coder>(
    alloc: Global,
    item: &CodecItem,
    place: usize,
    traces: &mut Vec<CodecTrace>,
    lender: &mut Lender<C>,
) -> Result<(), NoMemory>
    requires low { 1 ≤ item.now.saturation }
    requires high { item.now.saturation ≤ 64 }
    requires back { lender.old.out ≡ None }
    ensures judged { OnOk result
        (traces.new.items ≡ lawful_at lender.old.home item.now place traces.old.items) }
    ensures same { OnOk result (lender.new ≡ lender.old) }
{
    match traces.get_mut(place) {
        Some(trace) => judge_trace(alloc, item, trace, lender),
        None => Ok(()),
    }
}

// All codecs are judged, in the script's order.
fn judge_all<C: Coder>(
    alloc: Global,
    script: &ScriptData,
    traces: &mut Vec<CodecTrace>,
    lender: &mut Lender<C>,
) -> Result<(), NoMemory>
    requires sound { is_sound script.now ≡ true }
    requires back { lender.old.out ≡ None }
    ensures judged { OnOk result
        (traces.new.items ≡ lawful_traces lender.old.home script.now.codecs traces.old.items) }
    ensures same { OnOk result (lender.new ≡ lender.old) }
{
    for (place, item) in script.codecs.as_slice().iter().enumerate() {
        judge_at(alloc, item, place, traces, lender)?;
    }
    Ok(())
}

// The entries of a pool before the first that is not legal.
fn lawful_pool(alloc: Global, pool: List<PoolEntry>) -> Result<List<PoolEntry>, NoMemory>
    ensures { IfOk result (λ l. l ≡ pool_part pool) }
{
    let mut entries = pool.into_vec();
    let count = legal_pool_entries(alloc, entries.as_slice())?;
    entries.truncate(count);
    Ok(List::of(entries))
}

// The entries of a registry before the first that is not legal.
fn lawful_slots<C: Coder>(
    alloc: Global,
    slots: List<SlotEntry>,
    lender: &Lender<C>,
) -> Result<List<SlotEntry>, NoMemory>
    requires { lender.now.out ≡ None }
    ensures { IfOk result (λ l. l ≡ slots_part lender.now.home slots) }
{
    let made = lender.ids(alloc)?;
    let mut entries = slots.into_vec();
    let count = legal_slot_entries(alloc, &made, entries.as_slice())?;
    entries.truncate(count);
    Ok(List::of(entries))
}

/// The lawful part of a run of this script: of each codec its entries before the first that is not legal, with what its
/// definition shows for them (no more is shown from that entry on); of the pool and of the registry the entries before the
/// first that is not legal. Its callers' results, and how many media resources it holds, stay. The coders do the codecs'
/// work again, and are all back in their places then. `NoMemory` comes from want of memory alone.
pub fn lawful<C: Coder>(
    alloc: Global,
    script: &Script,
    run: Run,
    lender: &mut Lender<C>,
) -> Result<Run, NoMemory>
    requires { lender.old.out ≡ None }
    ensures part { IfOk result (λ r. r ≡ the_lawful script.now lender.old.home run) }
    ensures same { OnOk result (lender.new ≡ lender.old) }
{
    let Run {
        callers,
        codecs,
        pool,
        slots,
        held,
    } = run;
    let mut traces = codecs.into_vec();
    judge_all(alloc, script.data(), &mut traces, lender)?;
    let pool = lawful_pool(alloc, pool)?;
    let slots = lawful_slots(alloc, slots, lender)?;
    Ok(Run {
        callers,
        codecs: List::of(traces),
        pool,
        slots,
        held,
    })
}
