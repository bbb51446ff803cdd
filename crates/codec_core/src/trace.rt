// The entries of a codec, with what each showed.
ghost use Rattle.std.specs.Prelude.{ℕ, ◌≡◌, ◌≤◌, ◌<◌, ◌+◌, ◌-◌, ◌^◌, ◌++◌, ◌∷◌, [], List, max, length, drop, slice_get, map, option_map, IfOk, IfSome, OnOk, OnErr, Option, vec_len, vec_capacity};
ghost use Rattle.std.specs.List.{All, AllByRecursion};
ghost use Rattle.codec_model.specs.declared.entry.PromiseEnd.{PromiseEnd};
ghost use Rattle.codec_model.specs.Control.{front};
ghost use Rattle.codec_model.specs.Shown.{shown_of, units_in, units_shown, ends_of, ends_shown, promise_ended, promise_state};
ghost use Rattle.segmented_list.specs.Segments.{AreCut, joined};
ghost use Rattle.codec_core.specs.Trace.{AreStates, EndsBelow, outputs_behind, rejected, resolved_by, task_outputs};

use codec_model::{Entry, PromiseState, Showing, Task};
use coder_api::Unit;
use segmented_list::{Segment, SegmentedList, SegmentedVec};
use std::alloc::Global;
use std::marker::Model;
use wc_base::{DomError, NoMemory};

/// The entries of a codec's history, what each of them showed, and how the promise of each stands.
#[derive(Drop)]
pub(crate) struct Trace {
    entries: SegmentedVec<Entry>,
    shown: SegmentedVec<Showing>,
    // By the place of the flush; pending at each entry that is none.
    promises: Vec<PromiseState>,
    // From here on no output was taken: from this entry on, but for so many outputs.
    next_entry: usize,
    next_unit: usize,
    // So many more entries have a place.
    free: usize,
}

impl Model for Trace {
    ghost use Rattle.std.specs.Prelude.{map};
    ghost use Rattle.codec_model.specs.Shown.{shown_of};
    ghost use Rattle.codec_core.specs.Trace.{TraceValue, IsTrace, outputs_behind};

    ghost Value = { TraceValue };

    ghost view = { λ t. record { entries = t.entries.items; shown = map shown_of t.shown.items; waiting = outputs_behind t.next_entry t.next_unit (map shown_of t.shown.items); free = t.free } };

    ghost invariant = { IsTrace };
}

impl Trace {
    /// A history with no entry, and so many places.
    pub(crate) fn open(alloc: Global, places: usize) -> Result<Trace, NoMemory>
        ensures empty { IfOk result
            (λ t. t ≡ record { entries = []; shown = []; waiting = []; free = places }) }
        ensures fits { IfOk result (λ t. length t.entries + t.free < 2 ^ 63) }
    {
        let mut entries = SegmentedVec::new(alloc);
        entries.reserve(places)?;
        let mut shown = SegmentedVec::new(alloc);
        shown.reserve(places)?;
        Ok(Trace {
            entries,
            shown,
            promises: Vec::with_capacity(alloc, places)?,
            next_entry: 0,
            next_unit: 0,
            free: places,
        })
    }

    /// Makes places for at least so many more entries.
    pub(crate) fn reserve(&mut self, places: usize) -> Result<(), NoMemory>
        ensures ok { OnOk result (self.new ≡ record self.old { free = max places self.old.free }) }
        ensures fits { OnOk result (length self.new.entries + self.new.free < 2 ^ 63) }
        ensures err { OnErr result (self.new ≡ self.old) }
    {
        let free = self.free.max(places);
        self.entries.reserve(free)?;
        self.shown.reserve(free)?;
        self.promises.reserve(free)?;
        self.free = free;
        Ok(())
    }

    /// One more entry, with what it shows.
    pub(crate) fn push(&mut self, entry: Entry, showing: Showing)
        requires place { 1 ≤ self.old.free }
        requires ends { EndsBelow (length self.old.entries + 1) (shown_of showing).events }
        ensures { self.new
            ≡ record {
              entries = self.old.entries ++ entry ∷ [];
              shown = self.old.shown ++ shown_of showing ∷ [];
              waiting = self.old.waiting ++ units_in (shown_of showing).events;
              free = self.old.free - 1;
            } }
    {
        self.free -= 1;
        self.promises.push_reserved(PromiseState::Pending);
        end_promises(&mut self.promises, &showing);
        self.shown.push(showing);
        self.entries.push(entry);
        self.pass_empty();
    }

    /// Entries without outputs that are left to take are passed for good.
    fn pass_empty(&mut self)
        ensures { self.new ≡ self.old }
    {
        let (entry, unit) = seek(&self.shown, self.next_entry, self.next_unit);
        self.next_entry = entry;
        self.next_unit = unit;
    }

    /// The first output that was not taken.
    pub(crate) fn next_output(&self) -> Option<&Unit>
        ensures { option_map (λ u. u.now) result ≡ front self.now.waiting }
    {
        let (entry, unit) = seek(&self.shown, self.next_entry, self.next_unit);
        output_at(&self.shown, entry, unit)
    }

    /// The first output that was not taken is taken.
    pub(crate) fn pass_output(&mut self)
        requires { 1 ≤ length self.old.waiting }
        ensures { self.new ≡ record self.old { waiting = drop 1 self.old.waiting } }
    {
        let (entry, unit) = seek(&self.shown, self.next_entry, self.next_unit);
        self.next_entry = entry;
        self.next_unit = unit + 1;
    }

    /// The entries.
    pub(crate) fn entries(&self) -> &[Segment<Entry>]
        ensures joined { joined result.now ≡ self.now.entries }
        ensures cut { AreCut 0 result.now }
    {
        self.entries.segments()
    }

    /// The entry at a place; none from the end on.
    pub(crate) fn entry(&self, place: usize) -> Option<&Entry>
        ensures { option_map (λ e. e.now) result ≡ slice_get self.now.entries place }
    {
        self.entries.get(place)
    }

    /// What each of them showed.
    pub(crate) fn shown(&self) -> &[Segment<Showing>]
        ensures joined { map shown_of (joined result.now) ≡ self.now.shown }
        ensures cut { AreCut 0 result.now }
    {
        self.shown.segments()
    }

    /// The entries, and what each of them showed, with no memory.
    pub(crate) fn into_parts(self) -> (SegmentedList<Entry>, SegmentedList<Showing>)
        ensures entries { result.0 ≡ self.entries }
        ensures shown { map shown_of result.1 ≡ self.shown }
    {
        (
            SegmentedList::of(self.entries),
            SegmentedList::of(self.shown),
        )
    }

    /// How the promise of the flush at this place stands.
    pub(crate) fn end_of(&self, promise: u64) -> PromiseState
        ensures { result ≡ promise_state (ends_shown self.now.shown) promise }
    {
        match self.promises.get(promise as usize) {
            Some(state) => *state,
            None => PromiseState::Pending,
        }
    }
}

/// The outputs that an entry showed.
fn outputs_of(showing: &Showing) -> &[Unit]
    ensures { result.now ≡ units_in (shown_of showing.now).events }
{
    match showing {
        Showing::Turn { task, outputs: _ } => outputs_of_task(task),
        Showing::Nothing => &[],
        Showing::Refusal(_) => &[],
        Showing::Rejection { .. } => &[],
        Showing::Removal(_) => &[],
        Showing::Reclaim(_) => &[],
        Showing::Close { .. } => &[],
    }
}

fn outputs_of_task(task: &Task) -> &[Unit]
    ensures { result.now ≡ task_outputs task.now }
{
    match task {
        Task::Output(units) => units.as_slice(),
        Task::Flushed { promise: _, units } => units.as_slice(),
        Task::Unblock => &[],
        Task::Process => &[],
        Task::Desaturate => &[],
        Task::Dequeue => &[],
        Task::Close(_) => &[],
    }
}

fn unit_at(units: &[Unit], place: usize) -> Option<&Unit>
    ensures { option_map (λ u. u.now) result ≡ slice_get units.now place }
{
    units.get(place)
}

/// An output that an entry showed; none behind the last entry.
fn output_at(shown: &SegmentedVec<Showing>, entry: usize, unit: usize) -> Option<&Unit>
    requires { IfSome (slice_get shown.now.items entry)
        (λ showing. unit < length (units_in (shown_of showing).events)) }
    ensures { option_map (λ u. u.now) result
        ≡ front (outputs_behind entry unit (map shown_of shown.now.items)) }
{
    match shown.get(entry) {
        Some(showing) => unit_at(outputs_of(showing), unit),
        None => None,
    }
}

/// Passes entries without outputs: from the place of an entry on, but for so many outputs, the place of the entry that showed
/// the next output, or the end, and how many of its outputs come before that.
fn seek(shown: &SegmentedVec<Showing>, mut entry: usize, mut unit: usize) -> (usize, usize)
    requires entry { entry ≤ length shown.now.items }
    requires unit { unit ≤ length (units_shown (drop entry (map shown_of shown.now.items))) }
    ensures entry { result.0 ≤ length shown.now.items }
    ensures unit { result.1 ≤ length (units_shown (drop result.0 (map shown_of shown.now.items))) }
    ensures same { outputs_behind result.0 result.1 (map shown_of shown.now.items)
        ≡ outputs_behind entry unit (map shown_of shown.now.items) }
    ensures own { IfSome (slice_get shown.now.items result.0)
        (λ showing. result.1 < length (units_in (shown_of showing).events)) }
    ensures small { result.1 + 1 < 2 ^ 64 }
{
    while entry < shown.len() {
        let Some(showing) = shown.get(entry) else {
            break;
        };
        let count = outputs_of(showing).len();
        if unit < count {
            break;
        }
        unit -= count;
        entry += 1;
    }
    (entry, unit)
}

fn state_of(error: Option<DomError>) -> PromiseState
    ensures { result ≡ promise_ended error }
{
    match error {
        None => PromiseState::Resolved,
        Some(error) => PromiseState::Rejected(error),
    }
}

/// A promise ends, with an error or resolved, where it is still pending.
fn end_promise(states: &mut Vec<PromiseState>, promise: u64, error: Option<DomError>)
    requires { promise < vec_len states.old }
    ensures states { (ends : List PromiseEnd) → AreStates states.old.items ends
        → AreStates states.new.items (ends ++ record { promise = promise; error = error } ∷ []) }
    ensures len { vec_len states.new ≡ vec_len states.old }
    ensures capacity { vec_capacity states.new ≡ vec_capacity states.old }
{
    let place = promise as usize;
    match states[place] {
        PromiseState::Pending => {
            states[place] = state_of(error);
        }
        PromiseState::Resolved => {}
        PromiseState::Rejected(_) => {}
    }
}

/// Each of these promises is rejected, where it is still pending.
fn reject_promises(states: &mut Vec<PromiseState>, error: DomError, promises: &[u64])
    requires { All (λ p. p < vec_len states.old) promises.now }
    ensures states { (ends : List PromiseEnd) → AreStates states.old.items ends
        → AreStates states.new.items (ends ++ map (rejected error) promises.now) }
    ensures len { vec_len states.new ≡ vec_len states.old }
    ensures capacity { vec_capacity states.new ≡ vec_capacity states.old }
{
    for promise in promises {
        end_promise(states, *promise, Some(error));
    }
}

/// The promises end that an entry ends.
fn end_promises(states: &mut Vec<PromiseState>, showing: &Showing)
    requires { EndsBelow (vec_len states.old) (shown_of showing.now).events }
    ensures states { (ends : List PromiseEnd) → AreStates states.old.items ends
        → AreStates states.new.items (ends ++ ends_of (shown_of showing.now).events) }
    ensures len { vec_len states.new ≡ vec_len states.old }
    ensures capacity { vec_capacity states.new ≡ vec_capacity states.old }
{
    match showing {
        Showing::Nothing => {}
        Showing::Refusal(_) => {}
        Showing::Rejection { promise, error } => end_promise(states, *promise, Some(*error)),
        Showing::Removal(promises) => {
            reject_promises(states, DomError::Abort, promises.as_slice());
        }
        Showing::Reclaim(promises) => {
            reject_promises(states, DomError::QuotaExceeded, promises.as_slice());
        }
        Showing::Turn { task, outputs: _ } => resolve_promise(states, task),
        Showing::Close { error, promises } => reject_promises(states, *error, promises.as_slice()),
    }
}

/// The promise is resolved that a task resolves which does not close the codec.
fn resolve_promise(states: &mut Vec<PromiseState>, task: &Task)
    requires { AllByRecursion (λ e. e.promise < vec_len states.old) (resolved_by task.now) }
    ensures states { (ends : List PromiseEnd) → AreStates states.old.items ends
        → AreStates states.new.items (ends ++ resolved_by task.now) }
    ensures len { vec_len states.new ≡ vec_len states.old }
    ensures capacity { vec_capacity states.new ≡ vec_capacity states.old }
{
    match task {
        Task::Flushed { promise, units: _ } => end_promise(states, *promise, None),
        Task::Unblock => {}
        Task::Process => {}
        Task::Desaturate => {}
        Task::Output(_) => {}
        Task::Dequeue => {}
        Task::Close(_) => {}
    }
}
