// How much of a registry's history is legal.
ghost use Rattle.std.specs.Prelude.{◌≡◌, IfOk};
ghost use Rattle.slot_registry.specs.Slots.{is_legal_next};
ghost use Rattle.legal_fronts.specs.Fronts.{legal_entries};

use crate::ledger::Ledger;
use coder_api::SlotEntry;
use std::alloc::Global;
use wc_base::NoMemory;
use wc_config::CoderId;

/// How many entries of the history of a registry stand before the first that is not legal after those before it; all of
/// them where each is legal (our choice, as `is_legal_next` of `slot_registry` says it). `made` has the id of each coder
/// that was handed in. It takes memory in proportion to the boxes, and for each entry time in proportion to the coders; an
/// acquire also takes time by the square of the boxes that are out. `NoMemory` comes from want of memory alone.
pub fn legal_slot_entries(
    alloc: Global,
    made: &[CoderId],
    history: &[SlotEntry],
) -> Result<usize, NoMemory>
    ensures { IfOk result (λ n. n ≡ legal_entries (is_legal_next made.now) history.now) }
{
    let mut ledger = Ledger::empty(alloc);
    for (place, entry) in history.iter().enumerate() {
        if !ledger.admits(made, entry) {
            return Ok(place);
        }
        ledger.record(entry)?;
    }
    Ok(history.len())
}
