// What entries show, put together and taken apart.
ghost use Rattle.std.specs.Prelude.{◌≡◌, ◌++◌, ◌∷◌, [], IfOk, None, Option, map};
ghost use Rattle.codec_model.specs.Shown.{removal_shows, task_shows, close_shows, outputs_from, rejections, shown_of, closes, word_of_task};

use crate::entry::{Event, Showing, Shown, Task, TurnWord};
use coder_api::Unit;
use std::alloc::Global;
use wc_base::{DomError, List, NoMemory, try_push};

/// Which task a turn runs.
fn word_of(task: &Task) -> TurnWord
    ensures { result ≡ word_of_task task.now }
{
    match task {
        Task::Unblock => TurnWord::Unblock,
        Task::Process => TurnWord::Process,
        Task::Desaturate => TurnWord::Desaturate,
        Task::Output(_) => TurnWord::Output,
        Task::Flushed { .. } => TurnWord::Flushed,
        Task::Dequeue => TurnWord::Dequeue,
        Task::Close(error) => TurnWord::Close(*error),
    }
}

// Outputs, numbered from the first on.
fn push_outputs(units: List<Unit>, first: u128, events: &mut Vec<Event>) -> Result<(), NoMemory>
    ensures { IfOk result (λ x. events.new.items ≡ events.old.items ++ outputs_from first units) }
{
    // No memory holds more outputs than a u64 counts.
    let Ok(mut number) = u64::try_from(first) else {
        return Err(NoMemory);
    };
    for unit in units.into_vec() {
        try_push(events, Event::Output { number, unit })?;
        number = number.checked_add(1).ok_or(NoMemory)?;
    }
    Ok(())
}

// Promises that are rejected, in order.
fn push_rejections(
    error: DomError,
    promises: &[u64],
    events: &mut Vec<Event>,
) -> Result<(), NoMemory>
    ensures { IfOk result
        (λ x. events.new.items ≡ events.old.items ++ rejections error promises.now) }
{
    for promise in promises {
        let promise = *promise;
        try_push(events, Event::Reject { promise, error })?;
    }
    Ok(())
}

// What a task shows after so many outputs, where it is not the one that closes the codec.
fn task_events(alloc: Global, task: Task, outputs: u128) -> Result<List<Event>, NoMemory>
    ensures { IfOk result (λ l. l ≡ task_shows task outputs []) }
{
    match task {
        Task::Unblock => Ok(List::empty(alloc)),
        Task::Process => Ok(List::empty(alloc)),
        Task::Desaturate => Ok(List::empty(alloc)),
        Task::Output(units) => {
            let mut events = Vec::with_capacity(alloc, units.len())?;
            push_outputs(units, outputs, &mut events)?;
            Ok(List::of(events))
        }
        Task::Flushed { promise, units } => {
            let mut events = Vec::with_capacity(alloc, units.len().saturating_add(1))?;
            push_outputs(units, outputs, &mut events)?;
            try_push(&mut events, Event::Resolve(promise))?;
            Ok(List::of(events))
        }
        Task::Dequeue => one_event(alloc, Event::Dequeue),
        Task::Close(error) => one_event(alloc, Event::ErrorCall(error)),
    }
}

fn one_event(alloc: Global, event: Event) -> Result<List<Event>, NoMemory>
    ensures { IfOk result (λ l. l ≡ event ∷ []) }
{
    let mut events = Vec::with_capacity(alloc, 1)?;
    try_push(&mut events, event)?;
    Ok(List::of(events))
}

// What a codec shows that closes with an error.
fn close_events(alloc: Global, error: DomError, promises: &[u64]) -> Result<List<Event>, NoMemory>
    ensures { IfOk result (λ l. l ≡ close_shows error promises.now) }
{
    let mut events = Vec::with_capacity(alloc, promises.len().saturating_add(1))?;
    push_rejections(error, promises, &mut events)?;
    try_push(&mut events, Event::ErrorCall(error))?;
    Ok(List::of(events))
}

fn rejection_events(alloc: Global, promises: &[u64]) -> Result<List<Event>, NoMemory>
    ensures { IfOk result (λ l. l ≡ removal_shows promises.now) }
{
    let mut events = Vec::with_capacity(alloc, promises.len())?;
    push_rejections(DomError::Abort, promises, &mut events)?;
    Ok(List::of(events))
}

impl Showing {
    /// Whether it is the turn that closed the codec.
    pub fn closes(&self) -> bool
        ensures { result ≡ closes self.now }
    {
        matches!(self, Showing::Close { .. })
    }

    /// The entry's turn, if it is one, and the events that it shows. Outputs move into their events.
    pub fn into_shown(self, alloc: Global) -> Result<Shown, NoMemory>
        ensures { IfOk result (λ x. x ≡ shown_of self) }
    {
        match self {
            Showing::Nothing => Ok(Shown {
                turn: None,
                events: List::empty(alloc),
            }),
            Showing::Refusal(error) => Ok(Shown {
                turn: None,
                events: one_event(alloc, Event::Refusal(error))?,
            }),
            Showing::Rejection { promise, error } => Ok(Shown {
                turn: None,
                events: one_event(alloc, Event::Reject { promise, error })?,
            }),
            Showing::Removal(promises) => Ok(Shown {
                turn: None,
                events: rejection_events(alloc, promises.as_slice())?,
            }),
            Showing::Reclaim(promises) => Ok(Shown {
                turn: None,
                events: close_events(alloc, DomError::QuotaExceeded, promises.as_slice())?,
            }),
            Showing::Turn { task, outputs } => Ok(Shown {
                turn: Some(word_of(&task)),
                events: task_events(alloc, task, outputs)?,
            }),
            Showing::Close { error, promises } => Ok(Shown {
                turn: Some(TurnWord::Close(error)),
                events: close_events(alloc, error, promises.as_slice())?,
            }),
        }
    }
}

/// What each of a codec's entries shows.
pub fn shown_list(alloc: Global, showings: Vec<Showing>) -> Result<Vec<Shown>, NoMemory>
    ensures { IfOk result (λ v. v.items ≡ map shown_of showings.items) }
{
    let mut shown = Vec::with_capacity(alloc, showings.len())?;
    for showing in showings {
        try_push(&mut shown, showing.into_shown(alloc)?)?;
    }
    Ok(shown)
}
