// What a reader may ask of a history.
ghost use Rattle.std.specs.Prelude.{ℕ, ◌≡◌, ◌≤◌, IfOk, option_map, slice_get};
ghost use Rattle.codec_model.specs.Replay.{IsLegal};
ghost use Rattle.codec_model.specs.Shown.{promise_ended};
ghost use Rattle.segmented_list.specs.Segments.{joined};
ghost use Rattle.codec_laws.specs.Sights.{sights as the_sights};
ghost use Rattle.codec_laws.specs.Sources.{end_at, end_from, ends_in};
ghost use Rattle.codec_laws.specs.Answers.{output_of, call_and_turn, configure_and_index, IsOwnOutput, end_of as the_end};

use crate::book::outputs;
use crate::laws::{nothing_old, promises_end_once};
use crate::seen::sights;
use crate::sight::Sight;
use crate::source::Output;
use codec_model::{Entry, Opening, PromiseEnd, PromiseState};
use segmented_list::Segment;
use std::alloc::Global;
use wc_base::NoMemory;

fn state_of(end: PromiseEnd) -> PromiseState
    ensures { result ≡ promise_ended end.error }
{
    match end.error {
        None => PromiseState::Resolved,
        Some(error) => PromiseState::Rejected(error),
    }
}

// The first of these ends that is the promise's.
fn end_of(ends: &[PromiseEnd], promise: u64) -> Option<PromiseState>
    ensures { (place : ℕ) → end_at promise place ends.now ≡ option_map (λ s. (place, s)) result }
{
    let mut rest = ends;
    while let [end, more @ ..] = rest {
        if end.promise == promise {
            return Some(state_of(*end));
        }
        rest = more;
    }
    None
}

pub(crate) fn first_end(seen: &[Sight], promise: u64) -> Option<(u64, PromiseState)>
    ensures { result ≡ end_from promise 0 seen.now }
{
    let mut place = 0;
    let mut rest = seen;
    while let [sight, more @ ..] = rest {
        if let Some(state) = end_of(sight.ends.as_slice(), promise) {
            return Some((place, state));
        }
        place += 1;
        rest = more;
    }
    None
}

/// Where and how the promise of a flush ends, by the place of the flush: the place of the entry that ends it, and its state
/// then. `None` exactly where no entry ends it, so that it is pending at the end of the history. It ends at most once.
///
/// The places of entries are their numbers in the history, from 0.
pub fn promise_end(
    alloc: Global,
    opening: Opening,
    history: &[Segment<Entry>],
    promise: u64,
) -> Result<Option<(u64, PromiseState)>, NoMemory>
    requires { IsLegal opening (joined history.now) }
    ensures end { IfOk result (λ a. a ≡ the_end opening (joined history.now) promise) }
    ensures once { ends_in promise (the_sights opening (joined history.now)) ≤ 1 }
{
    promises_end_once();
    let seen = sights(alloc, opening, history)?;
    Ok(first_end(&seen, promise))
}

// The output with a number.
fn output_at(outputs: &[Output], number: u64) -> Option<Output>
    ensures { result ≡ slice_get outputs.now number }
{
    let number = usize::try_from(number).ok()?;
    outputs.get(number).copied()
}

// The output of a history with a number.
fn own_output(
    alloc: Global,
    opening: Opening,
    history: &[Segment<Entry>],
    number: u64,
) -> Result<Option<Output>, NoMemory>
    requires { IsLegal opening (joined history.now) }
    ensures output { IfOk result (λ a. a ≡ output_of opening (joined history.now) number) }
    ensures own { IsOwnOutput opening (joined history.now) number }
{
    nothing_old();
    let seen = sights(alloc, opening, history)?;
    let outputs = outputs(alloc, &seen)?;
    Ok(output_at(&outputs, number))
}

/// The place of the call whose item gave an output, and of the turn that showed it. Outputs are numbered from 0 as they are
/// shown; `None` exactly where the history shows no output of that number.
pub fn output_source(
    alloc: Global,
    opening: Opening,
    history: &[Segment<Entry>],
    number: u64,
) -> Result<Option<(u64, u64)>, NoMemory>
    requires { IsLegal opening (joined history.now) }
    ensures source { IfOk result
        (λ a. a ≡ option_map call_and_turn (output_of opening (joined history.now) number)) }
    ensures own { IsOwnOutput opening (joined history.now) number }
{
    Ok(match own_output(alloc, opening, history, number)? {
        Some(output) => Some((output.source.call, output.turn)),
        None => None,
    })
}

/// The place of the configure to whose configuration an output belongs, and which of that configuration's outputs it is, from
/// 0. `None` exactly where the history shows no output of that number.
pub fn output_configuration(
    alloc: Global,
    opening: Opening,
    history: &[Segment<Entry>],
    number: u64,
) -> Result<Option<(u64, u64)>, NoMemory>
    requires { IsLegal opening (joined history.now) }
    ensures configuration { IfOk result
        (λ a. a ≡ option_map configure_and_index (output_of opening (joined history.now) number)) }
    ensures own { IsOwnOutput opening (joined history.now) number }
{
    Ok(match own_output(alloc, opening, history, number)? {
        Some(output) => Some((output.source.configure, output.source.index)),
        None => None,
    })
}
