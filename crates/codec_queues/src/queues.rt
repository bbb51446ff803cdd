// Plain work on the queues, apart from the codec that has them.
ghost use Rattle.std.specs.Prelude.{ℕ, ◌≡◌, ◌<◌, ◌≤◌, ◌*◌, ◌+◌, ◌^◌, ◌++◌, ◌∷◌, [], max, length, count_by, sum_by, filter, not, ◌==◌, ◌&&◌, ◌||◌, if◌then◌else◌, unwrap_or, OnOk, IfOk, None, Some, true, false, cond};
ghost use Rattle.std.specs.VecDeque.{deque_len, deque_capacity};
ghost use Rattle.codec_model.specs.Control.{task_weight, is_coded, refusal_of, with_ran, with_desaturate, with_output, with_end, halts};
ghost use Rattle.codec_model.specs.Shown.{IsAnswer, word_of_task, task_shows, close_shows, closes};
ghost use Rattle.codec_queues.specs.Rising.{IsRising};
ghost use Rattle.codec_queues.specs.Sent.{promised};
ghost use Rattle.codec_queues.specs.Labels.{first_config, label_of};
ghost use Rattle.codec_queues.specs.Queues.{with_places, with_tasks};

use crate::rings::Queues;
use codec_model::{Answer, Ended, Running, Showing, Task, TurnWord, Work, WorkKind};
use coder_api::Unit;
use std::collections::VecDeque;
use wc_base::{DomError, List, NoMemory};
use wc_config::AudioDecoderConfig;

pub fn refusal_error(kind: WorkKind) -> DomError
    ensures { result ≡ refusal_of kind }
{
    match kind {
        WorkKind::Configure => DomError::NotSupported,
        WorkKind::Coded => DomError::Encoding,
        WorkKind::Flush => DomError::Encoding,
    }
}

/// Queues a dequeue event where it is wanted and none is scheduled.
pub fn schedule_dequeue(queues: &mut Queues, scheduled: &mut bool, wanted: bool)
    requires { length queues.old.tasks < queues.old.task_places }
    ensures queues { queues.new
        ≡ with_tasks (if wanted && not scheduled.old then queues.old.tasks
        ++ Task.Dequeue ∷ [] else queues.old.tasks) queues.old }
    ensures scheduled { scheduled.new ≡ (wanted || scheduled.old) }
{
    if wanted && !*scheduled {
        *scheduled = true;
        queues.push_task(Task::Dequeue, None);
    }
}

/// Takes out a promise. Flushes end in the order of their calls, so it is the first one.
pub fn remove_promise(pending: &mut VecDeque<u64>, promise: u64)
    requires { (high : ℕ) × IsRising pending.old.items high }
    ensures items { pending.new.items ≡ filter (λ p. not (p == promise)) pending.old.items }
{
    if let Some(first) = pending.pop_front() {
        if first != promise {
            pending.push_front_reserved(first);
            pending.retain(|p| *p != promise);
        }
    }
}

/// The end of an item that ran is queued.
fn queue_ran(
    queues: &mut Queues,
    saturated: bool,
    running: Running,
    units: List<Unit>,
    label: Option<AudioDecoderConfig>,
)
    requires room { length queues.old.tasks + 2 ≤ queues.old.task_places }
    requires label { label ≡ first_config units }
    ensures { queues.new
        ≡ with_tasks (with_ran running units saturated queues.old.tasks) queues.old }
{
    match running.kind {
        WorkKind::Configure => queues.push_task(Task::Unblock, None),
        WorkKind::Coded => {
            queue_desaturate(queues, saturated);
            queue_output(queues, units, label);
        }
        WorkKind::Flush => {
            let promise = running.place;
            queues.push_task(Task::Flushed { promise, units }, label);
        }
    }
}

fn queue_desaturate(queues: &mut Queues, saturated: bool)
    requires { length queues.old.tasks < queues.old.task_places }
    ensures queues { queues.new ≡ with_tasks (with_desaturate saturated queues.old.tasks) queues.old }
    ensures len { length queues.new.tasks ≤ length queues.old.tasks + 1 }
{
    if saturated && !queues.desaturates() {
        queues.push_task(Task::Desaturate, None);
    }
}

fn queue_output(queues: &mut Queues, units: List<Unit>, label: Option<AudioDecoderConfig>)
    requires room { length queues.old.tasks < queues.old.task_places }
    requires label { label ≡ first_config units }
    ensures { queues.new ≡ with_tasks (with_output units queues.old.tasks) queues.old }
{
    if !units.is_empty() {
        queues.push_task(Task::Output(units), label);
    }
}

fn queue_close(queues: &mut Queues, error: DomError)
    requires { length queues.old.tasks < queues.old.task_places }
    ensures { queues.new ≡ with_tasks (queues.old.tasks ++ Task.Close error ∷ []) queues.old }
{
    queues.push_task(Task::Close(error), None);
}

/// The end of an item of this epoch is queued, with a copy of the config that its outputs carry.
pub fn queue_end(
    queues: &mut Queues,
    saturated: bool,
    running: Running,
    ended: Ended,
    label: Option<AudioDecoderConfig>,
)
    requires room { length queues.old.tasks + 2 ≤ queues.old.task_places }
    requires label { label ≡ label_of ended }
    ensures { queues.new
        ≡ with_tasks (with_end running ended saturated queues.old.tasks) queues.old }
{
    match ended {
        Ended::Ran(units) => queue_ran(queues, saturated, running, units, label),
        Ended::Refused => queue_close(queues, refusal_error(running.kind)),
        Ended::NoSlot(_) => queue_close(queues, DomError::QuotaExceeded),
        Ended::NoMemory => queue_close(queues, DomError::OutOfMemory),
    }
}

/// Whether such an end halts the codec.
pub fn halts(ended: &Ended) -> bool
    ensures { result ≡ halts ended.now }
{
    match ended {
        Ended::Ran(_) => false,
        Ended::Refused => true,
        Ended::NoSlot(_) => true,
        Ended::NoMemory => true,
    }
}

/// The later one of two moments.
pub fn later(progress: Option<u64>, moment: u64) -> u64
    ensures { result ≡ max moment (unwrap_or progress moment) }
{
    match progress {
        Some(p) => moment.max(p),
        None => moment,
    }
}

/// The answer of the turn of a task that does not close the codec, after so many outputs.
pub fn turn_answer(place: u64, task: Task, outputs: u128) -> Answer
    ensures answer { IsAnswer place None
        (record { turn = Some (word_of_task task); events = task_shows task outputs [] }) result }
    ensures closes { closes result.showing ≡ false }
{
    Answer {
        place,
        exception: None,
        showing: Showing::Turn { task, outputs },
    }
}

/// The answer of the turn that closed the codec with an error.
pub fn close_answer(place: u64, error: DomError, promises: List<u64>) -> Answer
    ensures answer { IsAnswer place None
        (record {
          turn = Some (TurnWord.Close error);
          events = close_shows error promises;
        }) result }
    ensures closes { closes result.showing ≡ true }
{
    Answer {
        place,
        exception: None,
        showing: Showing::Close { error, promises },
    }
}

const MOST_QUEUED: usize = 0x0200_0000_0000_0000;

/// A count of steps that is at least what may come of so many messages, items and tasks, of a running item and of one
/// message more. It is a power of two, so that the queues grow seldom.
pub fn room_for(messages: usize, work: usize, tasks: usize) -> Result<usize, NoMemory>
    ensures enough { IfOk result (λ room. 7 * messages + 4 * work + 2 * tasks + 10 ≤ room) }
    ensures small { IfOk result (λ room. room + 1 < 2 ^ 62) }
{
    if messages < MOST_QUEUED && work < MOST_QUEUED && tasks < MOST_QUEUED {
        Ok((7 * messages + 4 * work + 2 * tasks + 10).next_power_of_two())
    } else {
        Err(NoMemory)
    }
}

/// Takes a place in each queue for a message and for all that comes of it.
pub fn reserve_places(
    queues: &mut Queues,
    pending: &mut VecDeque<u64>,
    room: usize,
) -> Result<(), NoMemory>
    requires { room + 1 < 2 ^ 62 }
    ensures same { queues.new ≡ with_places queues.new queues.old }
    ensures pending { pending.new.items ≡ pending.old.items }
    ensures for_work { OnOk result (room ≤ queues.new.work_places) }
    ensures for_tasks { OnOk result (room + 1 ≤ queues.new.task_places) }
    ensures for_message { OnOk result
        (length queues.new.messages < queues.new.message_places) }
    ensures for_pending { OnOk result (deque_len pending.new < deque_capacity pending.new) }
    ensures work_grows { queues.old.work_places ≤ queues.new.work_places }
    ensures tasks_grow { queues.old.task_places ≤ queues.new.task_places }
{
    pending.reserve(1)?;
    queues.reserve(room)
}

/// So many coded messages, with one more where this is one.
pub fn more_coded(size: u64, work: &Work) -> u64
    requires { size + 1 < 2 ^ 64 }
    ensures { result ≡ size + cond (is_coded work.now) 1 0 }
{
    if work.is_coded() { size + 1 } else { size }
}

/// A flush has the place of its call as its promise.
pub fn promise_if(pending: &mut VecDeque<u64>, work: &Work, place: u64)
    requires { deque_len pending.old < deque_capacity pending.old }
    ensures { pending.new.items ≡ promised work.now place pending.old.items }
{
    match work {
        Work::Flush => pending.push_back_reserved(place),
        Work::Configure(_) => {}
        Work::Coded(_) => {}
    }
}

/// How many turns come of a task at most.
pub fn task_weight(task: &Task) -> u64
    ensures { result ≡ task_weight task.now }
{
    match task {
        Task::Unblock => 2,
        _ => 1,
    }
}

/// How many turns come of the tasks of these queues at most.
pub fn tasks_weight(mut queues: Queues) -> u64
    requires { sum_by task_weight queues.tasks < 2 ^ 62 }
    ensures { result ≡ sum_by task_weight queues.tasks }
{
    let mut weight = 0;
    while let Some((task, _)) = queues.pop_task() {
        weight += task_weight(&task);
    }
    weight
}
