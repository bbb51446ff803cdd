// Whether two histories show the same.
ghost use Rattle.std.specs.Prelude.{◌≡◌, ◌≤◌, IfOk, Decides, true};
ghost use Rattle.codec_model.specs.Replay.{IsLegal};
ghost use Rattle.codec_model.specs.Shown.{shown, outputs_of};
ghost use Rattle.segmented_list.specs.Segments.{joined};
ghost use Rattle.codec_laws.specs.Sights.{listed};
ghost use Rattle.codec_laws.specs.Laws.{calls_alone, flush_end as the_end, flush_ends as the_ends, flush_ends_from, EndsCalm, ShowSame};

use crate::answers::first_end;
use crate::laws::same_calls_show_the_same;
use crate::seen::sights;
use crate::sight::Sight;
use codec_definitions::Unit;
use codec_model::{Call, Entry, Opening, PromiseState};
use segmented_list::{Items, Segment};
use std::alloc::Global;
use wc_base::{NoMemory, try_push};

fn same_units(a: &[Unit], b: &[Unit]) -> bool
    ensures { Decides result (a.now ≡ b.now) }
{
    a == b
}

fn same_states(a: &[PromiseState], b: &[PromiseState]) -> bool
    ensures { Decides result (a.now ≡ b.now) }
{
    a == b
}

// How the promise of an entry at a place ends, if it is a flush.
fn flush_end(entry: &Entry, place: u64, seen: &[Sight]) -> Option<PromiseState>
    ensures { listed result ≡ the_end place entry.now seen.now }
{
    let Entry::Call { who: _, call } = entry else {
        return None;
    };
    let Call::Flush = call else {
        return None;
    };
    match first_end(seen, place) {
        Some((_, state)) => Some(state),
        None => Some(PromiseState::Pending),
    }
}

fn flush_ends(
    alloc: Global,
    history: &[Segment<Entry>],
    seen: &[Sight],
) -> Result<Vec<PromiseState>, NoMemory>
    ensures { IfOk result (λ v. v.items ≡ flush_ends_from 0 (joined history.now) seen.now) }
{
    let mut ends = Vec::new(alloc);
    let mut place: u64 = 0;
    let mut rest = Items::of(history);
    while let Some(entry) = rest.next() {
        if let Some(state) = flush_end(entry, place, seen) {
            try_push(&mut ends, state)?;
        }
        place = place.checked_add(1).ok_or(NoMemory)?;
    }
    Ok(ends)
}

// How each flush of a history ends, in order.
fn ends_of(
    alloc: Global,
    opening: Opening,
    history: &[Segment<Entry>],
) -> Result<Vec<PromiseState>, NoMemory>
    requires { IsLegal opening (joined history.now) }
    ensures { IfOk result (λ v. v.items ≡ the_ends opening (joined history.now)) }
{
    let seen = sights(alloc, opening, history)?;
    flush_ends(alloc, history, &seen)
}

/// Whether two histories of codecs that were opened alike show the same outputs, in order and with their metadata, and their
/// flushes, one after another, end alike: each is resolved, rejected with the same error, or pending at the end. `units` and
/// `other_units` are the outputs that they show.
///
/// It is so where no removal stands in either, both end quiet, and both have the same calls, whatever the places and moments
/// of their starts, ends and turns.
pub fn same_shown(
    alloc: Global,
    opening: Opening,
    history: &[Segment<Entry>],
    units: &[Unit],
    other: &[Segment<Entry>],
    other_units: &[Unit],
) -> Result<bool, NoMemory>
    requires legal { IsLegal opening (joined history.now) }
    requires other_legal { IsLegal opening (joined other.now) }
    requires units { units.now ≡ outputs_of (shown opening (joined history.now)) }
    requires other_units { other_units.now ≡ outputs_of (shown opening (joined other.now)) }
    ensures same { IfOk result
        (λ same. Decides same (ShowSame opening (joined history.now) (joined other.now))) }
    ensures calls { IfOk result
        (λ same. 1 ≤ opening.saturation → EndsCalm opening (joined history.now)
        → EndsCalm opening (joined other.now)
        → calls_alone (joined history.now) ≡ calls_alone (joined other.now) → same ≡ true) }
{
    same_calls_show_the_same();
    let ends = ends_of(alloc, opening, history)?;
    let other_ends = ends_of(alloc, opening, other)?;
    Ok(same_units(units, other_units) && same_states(&ends, &other_ends))
}
