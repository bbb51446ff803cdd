// What of each entry the laws speak of, for a whole history.
ghost use Rattle.std.specs.Prelude.{◌≡◌, ◌++◌, [], length, option_map, if◌then◌else◌, IfOk, None};
ghost use Rattle.codec_model.specs.Control.{kind_of};
ghost use Rattle.codec_model.specs.Replay.{message_of, removes, IsLegal};
ghost use Rattle.codec_model.specs.Shown.{units_in, ends_of, event_ends};
ghost use Rattle.segmented_list.specs.Segments.{joined};
ghost use Rattle.codec_laws.specs.Sights.{asked_for, aborts, rejects_with, listed, is_output as the_output, ran as the_run, dequeues as the_events, sight_of as the_sight, sights as the_sights};
ghost use Rattle.codec_laws.specs.Seen.{Goes, Went};

use crate::sight::{Ran, Sight};
use codec_follow::{Follower, legal_steps_are_followed};
use codec_model::{
    Call, Entry, Event, Handed, Opening, Outcome, PromiseEnd, Shown, TurnWord, WorkKind,
};
use segmented_list::{Items, Segment};
use std::alloc::Global;
use wc_base::{DomError, List, NoMemory, try_push};

// What a call asks for by its message, if it sends one.
fn message_kind(call: &Call) -> Option<WorkKind>
    ensures { result ≡ option_map kind_of (message_of call.now) }
{
    match call {
        Call::Configure(_) => Some(WorkKind::Configure),
        Call::Decode(_) => Some(WorkKind::Coded),
        Call::Encode(handed) => match handed {
            Handed::Cloned(_) => Some(WorkKind::Coded),
            Handed::Gone => None,
            Handed::Kept => None,
        },
        Call::Flush => Some(WorkKind::Flush),
        Call::Reset => None,
        Call::Close => None,
        Call::Take(_) => None,
        Call::Ground(_) => None,
    }
}

// What a call asks for that is accepted.
fn asks(entry: &Entry, events: &[Event]) -> Option<WorkKind>
    ensures { result ≡ option_map kind_of (asked_for entry.now events.now) }
{
    if !events.is_empty() {
        return None;
    }
    match entry {
        Entry::Call { who: _, call } => message_kind(call),
        _ => None,
    }
}

fn aborted(events: &[Event]) -> Option<DomError>
    ensures { result ≡ aborts events.now }
{
    match events {
        [Event::Refusal(_), ..] => None,
        _ => Some(DomError::Abort),
    }
}

fn removed_by(call: &Call, events: &[Event]) -> Option<DomError>
    ensures { result ≡ (if removes call.now then aborts events.now else None) }
{
    if call.removes() {
        aborted(events)
    } else {
        None
    }
}

// The error with which a removal rejects what is pending.
fn removal(entry: &Entry, shown: &Shown) -> Option<DomError>
    ensures { result ≡ rejects_with entry.now shown.now }
{
    match entry {
        Entry::Call { who: _, call } => removed_by(call, shown.events.as_slice()),
        Entry::Turn => match shown.turn {
            Some(TurnWord::Close(error)) => Some(error),
            _ => None,
        },
        Entry::Reclaim { .. } => Some(DomError::QuotaExceeded),
        _ => None,
    }
}

fn ran(entry: &Entry) -> Option<Ran>
    ensures { result ≡ the_run entry.now }
{
    match entry {
        Entry::Done {
            epoch,
            item,
            moment: _,
            outcome,
        } => match outcome {
            Outcome::Ran { units } => Some(Ran {
                epoch: *epoch,
                item: *item,
                units: *units,
            }),
            _ => None,
        },
        _ => None,
    }
}

fn is_output(event: &Event) -> bool
    ensures { result ≡ the_output event.now }
{
    matches!(event, Event::Output { .. })
}

fn outputs(events: &[Event]) -> u64
    ensures { result ≡ length (units_in events.now) }
{
    let mut count = 0;
    let mut rest = events;
    while let [event, more @ ..] = rest {
        if is_output(event) {
            count += 1;
        }
        rest = more;
    }
    count
}

fn dequeues(events: &[Event]) -> bool
    ensures { result ≡ the_events events.now }
{
    let mut rest = events;
    while let [event, more @ ..] = rest {
        if matches!(event, Event::Dequeue) {
            return true;
        }
        rest = more;
    }
    false
}

fn end_of(event: &Event) -> Option<PromiseEnd>
    ensures { listed result ≡ event_ends event.now }
{
    match event {
        Event::Resolve(promise) => Some(PromiseEnd {
            promise: *promise,
            error: None,
        }),
        Event::Reject { promise, error } => Some(PromiseEnd {
            promise: *promise,
            error: Some(*error),
        }),
        _ => None,
    }
}

fn ends(alloc: Global, events: &[Event]) -> Result<List<PromiseEnd>, NoMemory>
    ensures { IfOk result (λ l. l ≡ ends_of events.now) }
{
    let mut made = Vec::new(alloc);
    let mut rest = events;
    while let [event, more @ ..] = rest {
        if let Some(end) = end_of(event) {
            try_push(&mut made, end)?;
        }
        rest = more;
    }
    Ok(List::of(made))
}

fn sight(alloc: Global, entry: &Entry, shown: &Shown, size: u64) -> Result<Sight, NoMemory>
    ensures { IfOk result (λ x. x ≡ the_sight entry.now shown.now size) }
{
    let events = shown.events.as_slice();
    Ok(Sight {
        asks: asks(entry, events),
        removes: removal(entry, shown),
        ran: ran(entry),
        outputs: outputs(events),
        ends: ends(alloc, events)?,
        dequeues: dequeues(events),
        size,
    })
}

// The next entry of a legal history.
pub(crate) fn follow(follower: &mut Follower, entry: &Entry) -> Result<Shown, NoMemory>
    requires { Goes entry.now follower.old }
    ensures { IfOk result (λ x. Went entry.now follower.old x follower.new) }
{
    match follower.follow(entry)? {
        Some(shown) => Ok(shown),
        None => unreachable!(),
    }
}

/// What of each entry of a legal history the laws speak of.
pub fn sights(
    alloc: Global,
    opening: Opening,
    history: &[Segment<Entry>],
) -> Result<Vec<Sight>, NoMemory>
    requires { IsLegal opening (joined history.now) }
    ensures { IfOk result (λ v. v.items ≡ the_sights opening (joined history.now)) }
{
    legal_steps_are_followed();
    let mut follower = Follower::open(alloc, opening)?;
    let mut seen = Vec::new(alloc);
    let mut rest = Items::of(history);
    while let Some(entry) = rest.next() {
        let shown = follow(&mut follower, entry)?;
        let one = sight(alloc, entry, &shown, follower.size())?;
        try_push(&mut seen, one)?;
    }
    Ok(seen)
}
