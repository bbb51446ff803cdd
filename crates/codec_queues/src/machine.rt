// The queues of a codec.
ghost use Rattle.std.specs.Prelude.{◌≡◌, ◌<◌, ◌≤◌, ◌^◌, ◌+◌, nat_le, [], true, false, IsTrue, IsSome, OnOk, OnErr, OnSome, IfOk, IfNone, IfSome, None, option_map};
ghost use Rattle.codec_model.specs.Replay.{call_error, after_call, removal_error, accepted, encode_error, may_call, sends};
ghost use Rattle.codec_model.specs.Control.{at_next_place, after_take, takes_front, process_front, process, start_item, after_start, after_done, after_turn, turn_closes, after_reset, after_close, after_ground, activity, may_reclaim, opening_control, left};
ghost use Rattle.codec_model.specs.Shown.{IsAnswer, exception_of, call_shows, accepted_shows, reclaim_shows, turn_shows, turn_word, closes, shown_of};
ghost use Rattle.codec_queues.specs.Labels.{label_of};
ghost use Rattle.codec_queues.specs.Sent.{sent};

use crate::labels::carry;
use crate::queues::{
    close_answer, halts, later, more_coded, promise_if, queue_end, remove_promise, reserve_places,
    room_for, schedule_dequeue, tasks_weight, turn_answer,
};
use crate::rings::Queues;
use codec_model::{
    Answer, Call, CodecState, Coded, Ended, Handed, Item, Message, Opening, Running, Showing, Task,
    Work, WorkKind, is_background_decoder, is_decoder, is_key_chunk,
};
use std::alloc::Global;
use std::collections::VecDeque;
use std::marker::Model;
use std::mem;
use wc_base::{DomError, Ground, List, NoMemory};
use wc_config::AudioDecoderConfig;

// How long a codec counts as active after its last item ended, in microseconds.
const ACTIVITY: u64 = 10_000_000;

// Whether a codec is not active any more whose last item ended at this moment.
fn is_inactive(moment: u64, now: u64) -> bool
    ensures { result ≡ nat_le (moment + activity) now }
{
    now.saturating_sub(moment) >= ACTIVITY
}

/// What a codec keeps beside its history and its coder: its state, its queues, its pending promises, and how many outputs
/// were shown. A contract sees it as the control state of the codec's definition.
#[derive(Drop)]
pub struct Machine {
    alloc: Global,
    place: u64,
    opening: Opening,
    phase: CodecState,
    key_required: bool,
    queues: Queues,
    blocked: bool,
    saturated: bool,
    halted: bool,
    size: u64,
    pending: VecDeque<u64>,
    next_item: u64,
    running: Option<Running>,
    // The coded items of this epoch that are queued or running.
    coded: usize,
    scheduled: bool,
    // A task shows fewer outputs than 2^64, and there are fewer entries than that.
    shown: u128,
    taken: u64,
    // The decoder config of the last encoded output that was shown.
    active: Option<AudioDecoderConfig>,
    progress: Option<u64>,
    own_ground: Ground,
    // At most so many starts, ends and turns are left.
    room: usize,
}

impl Model for Machine {
    ghost use Rattle.codec_model.specs.Control.{Control};
    ghost use Rattle.codec_queues.specs.Kept.{control_of, IsRoomy};

    ghost Value = { Control };

    ghost view = { control_of };

    ghost invariant = { IsRoomy };
}

impl Machine {
    /// A codec that was opened, and not configured yet.
    pub fn open(alloc: Global, opening: Opening) -> Result<Machine, NoMemory>
        ensures { IfOk result (λ m. m ≡ opening_control opening) }
    {
        let queues = Queues::open(alloc)?;
        Ok(Machine {
            alloc,
            place: 0,
            opening,
            phase: CodecState::Unconfigured,
            key_required: true,
            queues,
            blocked: false,
            saturated: false,
            halted: false,
            size: 0,
            pending: VecDeque::new(alloc),
            next_item: 0,
            running: None,
            coded: 0,
            scheduled: false,
            shown: 0,
            taken: 0,
            active: None,
            progress: None,
            own_ground: Ground::Foreground,
            room: 0,
        })
    }

    /// At least as many as the starts, ends and turns that are left.
    pub fn room(&self) -> usize
        ensures left { left self.now ≤ result }
        ensures small { result < 2 ^ 62 }
    {
        self.room
    }

    /// How many starts, ends and turns are left at most: 7 for each message, 4 for each item, 3 for one at work, 2 for each task
    /// that unblocks the queue, and 1 for each other task. Counting the tasks uses the machine up.
    pub fn into_left(self) -> u64
        ensures { result ≡ left self }
    {
        let messages = self.queues.message_count() as u64;
        let items = self.queues.item_count() as u64;
        let running = if self.running.is_some() { 3 } else { 0 };
        7 * messages + 4 * items + running + tasks_weight(self.queues)
    }

    /// The place of the next entry.
    pub fn place(&self) -> u64
        ensures { result ≡ self.now.place }
    {
        self.place
    }

    /// How the codec was opened.
    pub fn opening(&self) -> Opening
        ensures { result ≡ self.now.opening }
    {
        self.opening
    }

    pub fn phase(&self) -> CodecState
        ensures { result ≡ self.now.phase }
    {
        self.phase
    }

    /// How many removals there were.
    pub fn epoch(&self) -> u64
        ensures { result ≡ self.now.epoch }
    {
        self.queues.epoch()
    }

    /// The queue size that callers see: coded messages that are not yet processed.
    pub fn size(&self) -> u64
        ensures { result ≡ self.now.size }
    {
        self.size
    }

    /// The item at work.
    pub fn running(&self) -> Option<Running>
        ensures { result ≡ self.now.running }
    {
        self.running
    }

    /// The moment of the last item of this epoch that ended, in microseconds.
    pub fn progress(&self) -> Option<u64>
        ensures { result ≡ self.now.progress }
    {
        self.progress
    }

    /// Where the codec is at work.
    pub fn ground(&self) -> Ground
        ensures { result ≡ self.now.own_ground }
    {
        self.own_ground
    }

    /// How many outputs were taken, which is the number of the next one.
    pub fn taken(&self) -> u64
        ensures { result ≡ self.now.taken }
    {
        self.taken
    }

    /// The item that a start would take: the front one, where none is at work and the codec is not halted.
    pub fn start_item(&self) -> Option<&Item>
        ensures { option_map (λ i. i.now) result ≡ start_item self.now }
    {
        if self.running.is_some() || self.halted {
            return None;
        }
        self.queues.front_item()
    }

    /// The error with which a reset or close is refused: `InvalidState` of a closed codec.
    pub fn removal_error(&self) -> Option<DomError>
        ensures { result ≡ removal_error self.now }
    {
        match self.phase {
            CodecState::Closed => Some(DomError::InvalidState),
            CodecState::Unconfigured => None,
            CodecState::Configured => None,
        }
    }

    /// The error with which a call is refused: `TypeErr` for a config that is not valid and for data that is detached,
    /// `InvalidState` in a state without the call, `Data` where a key chunk is required, which a video decoder finds by the
    /// bytes too.
    pub fn error_of(&self, call: &Call) -> Option<DomError>
        ensures { result ≡ call_error call.now self.now }
    {
        match call {
            Call::Configure(config) => {
                if config.is_valid() {
                    self.removal_error()
                } else {
                    Some(DomError::TypeErr)
                }
            }
            Call::Decode(chunk) => match self.phase {
                CodecState::Configured => {
                    if self.key_required && !is_key_chunk(self.opening.kind, chunk) {
                        Some(DomError::Data)
                    } else {
                        None
                    }
                }
                CodecState::Unconfigured => Some(DomError::InvalidState),
                CodecState::Closed => Some(DomError::InvalidState),
            },
            Call::Encode(Handed::Gone) => Some(DomError::TypeErr),
            Call::Encode(Handed::Kept) => Some(DomError::InvalidState),
            Call::Encode(Handed::Cloned(_)) => None,
            Call::Flush => match self.phase {
                CodecState::Configured => None,
                CodecState::Unconfigured => Some(DomError::InvalidState),
                CodecState::Closed => Some(DomError::InvalidState),
            },
            Call::Reset => self.removal_error(),
            Call::Close => self.removal_error(),
            Call::Take(_) => None,
            Call::Ground(_) => None,
        }
    }

    /// The error with which an encode is refused: `TypeErr` of detached data, and else `InvalidState` where the codec is not
    /// configured.
    pub fn encode_error(&self, detached: bool) -> Option<DomError>
        ensures { result ≡ encode_error detached self.now }
    {
        if detached {
            return Some(DomError::TypeErr);
        }
        match self.phase {
            CodecState::Configured => None,
            CodecState::Unconfigured => Some(DomError::InvalidState),
            CodecState::Closed => Some(DomError::InvalidState),
        }
    }

    /// Whether a call can be made now, as it tells what became of an encode's data and which output is taken: a clone was
    /// made exactly where the codec is configured, and the first output that was shown and not taken yet is taken.
    pub fn may_call(&self, call: &Call) -> bool
        ensures { result ≡ may_call call.now self.now }
    {
        match call {
            Call::Encode(Handed::Gone) => true,
            Call::Encode(Handed::Kept) => self.encode_error(false).is_some(),
            Call::Encode(Handed::Cloned(_)) => self.encode_error(false).is_none(),
            Call::Take(unit) => *unit == self.taken && (*unit as u128) < self.shown,
            Call::Configure(_) => true,
            Call::Decode(_) => true,
            Call::Flush => true,
            Call::Reset => true,
            Call::Close => true,
            Call::Ground(_) => true,
        }
    }

    /// Whether the codec may be reclaimed at a moment in microseconds: it is configured, and its last item ended ten
    /// seconds before or earlier, or at whatever moment where it is a decoder in the background.
    pub fn may_reclaim(&self, now: u64) -> bool
        ensures { result ≡ may_reclaim now self.now }
    {
        match self.phase {
            CodecState::Configured => match self.progress {
                Some(moment) => {
                    is_inactive(moment, now)
                        || is_background_decoder(self.opening.kind, self.own_ground)
                }
                None => false,
            },
            CodecState::Unconfigured => false,
            CodecState::Closed => false,
        }
    }
}

#[tactic(auto, using(crate::proofs::Room::tasks_fit))]
impl Machine {
    /// Whether the front message is processed now.
    fn takes_front(&self) -> bool
        ensures { result ≡ takes_front self.now.messages self.now }
    {
        match self.queues.front_message() {
            Some(m) => !self.blocked && !(self.saturated && m.work.is_coded()),
            None => false,
        }
    }

    /// Processes the front message.
    fn process_front(&mut self)
        requires { takes_front self.old.messages self.old ≡ true }
        ensures after { self.new ≡ process_front self.old.messages self.old }
        ensures left { left self.new ≤ left self.old }
    {
        if let Some(m) = self.queues.pop_message() {
            match &m.work {
                Work::Configure(_) => {
                    self.blocked = true;
                }
                Work::Coded(_) => {
                    self.coded += 1;
                    self.saturated = self.coded == self.opening.saturation as usize;
                    self.size -= 1;
                    schedule_dequeue(&mut self.queues, &mut self.scheduled, true);
                }
                Work::Flush => {}
            }
            self.queues.push_item(Item {
                number: self.next_item,
                place: m.place,
                work: m.work,
            });
            self.next_item += 1;
        }
    }

    /// Processes messages while they can be.
    fn process(&mut self)
        ensures after { self.new ≡ process self.old }
        ensures left { left self.new ≤ left self.old }
    {
        while self.takes_front() {
            self.process_front();
        }
    }
}

#[tactic(auto, using(crate::proofs::Room::tasks_fit, crate::proofs::Room::tasks_weigh, crate::proofs::Room::running_weighs))]
impl Machine {
    /// Queues the message of a call, which changes these of the codec, and processes. Each later step that comes of it has
    /// its place then.
    fn send(&mut self, work: Work, phase: CodecState, key_required: bool) -> Result<(), NoMemory>
        requires { self.old.place + 1 < 2 ^ 64 }
        ensures ok { OnOk result (self.new ≡ sent work phase key_required self.old) }
        ensures left { left self.new ≤ left self.old + 7 }
        ensures err { OnErr result (self.new ≡ self.old) }
    {
        let room = room_for(
            self.queues.message_count(),
            self.queues.item_count(),
            self.queues.task_count(),
        )?;
        reserve_places(&mut self.queues, &mut self.pending, room)?;
        self.room = room;
        let place = self.place;
        self.place += 1;
        self.phase = phase;
        self.key_required = key_required;
        self.size = more_coded(self.size, &work);
        promise_if(&mut self.pending, &work, place);
        self.queues.push_message(Message { place, work });
        self.process();
        Ok(())
    }
}

#[tactic(auto, using(crate::proofs::Room::tasks_fit, crate::proofs::Room::dequeues_fit, crate::proofs::Rising::rising_next, crate::proofs::Rising::none_rise, crate::proofs::Rising::rising_filter, crate::proofs::Room::end_weighs))]
impl Machine {
    /// The front item becomes running, where there is one, none is running and the codec is not halted.
    pub fn start(&mut self) -> Option<Item>
        requires { self.old.place + 1 < 2 ^ 64 }
        ensures item { result ≡ start_item self.old }
        ensures after { self.new ≡ after_start self.old }
        ensures left { OnSome result (left self.new + 1 ≤ left self.old) }
    {
        if self.running.is_some() || self.halted {
            return None;
        }
        let item = self.queues.pop_item()?;
        self.place += 1;
        self.running = Some(Running {
            epoch: self.queues.epoch(),
            number: item.number,
            place: item.place,
            kind: item.work.kind(),
        });
        Some(item)
    }

    /// The running item ends at a moment in microseconds. With it comes a copy of the config that its outputs carry.
    pub fn done(&mut self, ended: Ended, moment: u64, label: Option<AudioDecoderConfig>)
        requires place { self.old.place + 1 < 2 ^ 64 }
        requires running { IsSome self.old.running }
        requires label { label ≡ label_of ended }
        ensures after { self.new ≡ after_done ended moment self.old }
        ensures left { left self.new + 1 ≤ left self.old }
    {
        if let Some(r) = self.running {
            self.running = None;
            self.place += 1;
            if r.epoch == self.queues.epoch() {
                if r.kind == WorkKind::Coded {
                    self.coded -= 1;
                }
                self.progress = Some(later(self.progress, moment));
                self.halted = halts(&ended) || self.halted;
                queue_end(&mut self.queues, self.saturated, r, ended, label);
            }
        }
    }

    /// Removes all but the running item and a scheduled dequeue event. The answer is the promises that were pending.
    fn clear(&mut self) -> List<u64>
        requires { self.old.epoch < self.old.place }
        ensures promises { result ≡ self.old.pending }
        ensures after { self.new ≡ after_reset self.old }
        ensures left { left self.new ≤ left self.old }
    {
        self.phase = CodecState::Unconfigured;
        self.blocked = false;
        self.saturated = false;
        self.halted = false;
        self.active = None;
        self.progress = None;
        self.queues.remove_all();
        self.next_item = 0;
        self.coded = 0;
        let sized = self.size != 0;
        self.size = 0;
        schedule_dequeue(&mut self.queues, &mut self.scheduled, sized);
        let pending = mem::replace(&mut self.pending, VecDeque::new(self.alloc));
        List::of(pending.into_vec())
    }

    /// Clears the codec and closes it. The answer is the promises that were pending.
    fn shut(&mut self) -> List<u64>
        requires { self.old.epoch < self.old.place }
        ensures promises { result ≡ self.old.pending }
        ensures after { self.new ≡ after_close self.old }
        ensures left { left self.new ≤ left self.old }
    {
        let promises = self.clear();
        self.phase = CodecState::Closed;
        promises
    }

    /// Reclaims the codec where that may be at a moment in microseconds, and else leaves it as it was.
    pub fn reclaim(&mut self, now: u64) -> Option<Answer>
        requires { self.old.place + 1 < 2 ^ 64 }
        ensures none { IfNone result (may_reclaim now self.old ≡ false) }
        ensures kept { IfNone result (self.new ≡ self.old) }
        ensures may { OnSome result (may_reclaim now self.old ≡ true) }
        ensures made { OnSome result (self.new ≡ after_close (at_next_place self.old)) }
        ensures answer { IfSome result
            (IsAnswer self.old.place None
            (record { turn = None; events = reclaim_shows self.old.pending })) }
        ensures left { left self.new ≤ left self.old }
    {
        if !self.may_reclaim(now) {
            return None;
        }
        let place = self.place;
        self.place += 1;
        let showing = Showing::Reclaim(self.shut());
        Some(Answer {
            place,
            exception: None,
            showing,
        })
    }

    /// The front task runs, where there is one.
    pub fn turn(&mut self) -> Option<Answer>
        requires { self.old.place + 1 < 2 ^ 64 }
        ensures closes { option_map (λ a. closes a.showing) result ≡ turn_closes self.old.tasks }
        ensures after { self.new ≡ after_turn self.old }
        ensures answer { IfSome result
            (IsAnswer self.old.place None
            (record {
              turn = turn_word self.old.tasks;
              events = turn_shows self.old.tasks self.old;
            })) }
        ensures left { OnSome result (left self.new + 1 ≤ left self.old) }
    {
        let (task, label) = self.queues.pop_task()?;
        let (place, outputs) = (self.place, self.shown);
        self.place += 1;
        match task {
            Task::Unblock => {
                self.blocked = false;
                self.queues.push_task(Task::Process, None);
                Some(turn_answer(place, Task::Unblock, outputs))
            }
            Task::Process => {
                self.process();
                Some(turn_answer(place, Task::Process, outputs))
            }
            Task::Desaturate => {
                self.saturated = false;
                self.process();
                Some(turn_answer(place, Task::Desaturate, outputs))
            }
            Task::Output(units) => {
                self.shown += units.len() as u128;
                let units = carry(&mut self.active, label, units);
                Some(turn_answer(place, Task::Output(units), outputs))
            }
            Task::Flushed { promise, units } => {
                remove_promise(&mut self.pending, promise);
                self.shown += units.len() as u128;
                let units = carry(&mut self.active, label, units);
                Some(turn_answer(place, Task::Flushed { promise, units }, outputs))
            }
            Task::Dequeue => {
                self.scheduled = false;
                Some(turn_answer(place, Task::Dequeue, outputs))
            }
            Task::Close(error) => {
                let promises = self.shut();
                Some(close_answer(place, error, promises))
            }
        }
    }
}

#[tactic(auto, using(crate::proofs::Rising::rising_next))]
impl Machine {
    /// A call that is refused, or needs no more than its entry, has it and does nothing else.
    fn enter(&mut self)
        requires { self.old.place + 1 < 2 ^ 64 }
        ensures after { self.new ≡ at_next_place self.old }
        ensures left { left self.new ≡ left self.old }
    {
        self.place += 1;
    }

    /// The first output that was shown and not taken yet is taken.
    fn take(&mut self)
        requires { self.old.place + 1 < 2 ^ 64 }
        ensures after { self.new ≡ after_take (at_next_place self.old) }
        ensures left { left self.new ≡ left self.old }
    {
        self.taken += 1;
        self.place += 1;
    }

    /// The codec is at work there from now on.
    fn set_ground(&mut self, to: Ground)
        requires { self.old.place + 1 < 2 ^ 64 }
        ensures after { self.new ≡ after_ground to (at_next_place self.old) }
        ensures left { left self.new ≡ left self.old }
    {
        self.own_ground = to;
        self.place += 1;
    }

    /// A call that is not refused and sends a message.
    fn queue(&mut self, call: &Call) -> Result<(), NoMemory>
        requires place { self.old.place + 1 < 2 ^ 64 }
        requires sends { sends call.now ≡ true }
        ensures ok { OnOk result (self.new ≡ accepted call.now self.old) }
        ensures left { left self.new ≤ left self.old + 7 }
        ensures err { OnErr result (self.new ≡ self.old) }
    {
        let phase = self.phase;
        let key_required = is_decoder(self.opening.kind) || self.key_required;
        match call {
            Call::Configure(config) => {
                let config = config.copy()?;
                self.send(
                    Work::Configure(config),
                    CodecState::Configured,
                    key_required,
                )
            }
            Call::Decode(chunk) => {
                let chunk = chunk.copy()?;
                self.send(Work::Coded(Coded::Chunk(chunk)), phase, false)
            }
            Call::Encode(Handed::Cloned(medium)) => {
                let medium = medium.copy()?;
                self.send(Work::Coded(Coded::Medium(medium)), phase, self.key_required)
            }
            Call::Flush => self.send(Work::Flush, phase, key_required),
            Call::Encode(Handed::Gone) => unreachable!(),
            Call::Encode(Handed::Kept) => unreachable!(),
            Call::Reset => unreachable!(),
            Call::Close => unreachable!(),
            Call::Take(_) => unreachable!(),
            Call::Ground(_) => unreachable!(),
        }
    }

    /// A call that is not refused and sends no message. The answer is what it shows.
    fn make(&mut self, call: &Call) -> Showing
        requires place { self.old.place + 1 < 2 ^ 64 }
        requires sends { sends call.now ≡ false }
        ensures after { self.new ≡ accepted call.now self.old }
        ensures showing { shown_of result
            ≡ record { turn = None; events = accepted_shows call.now self.old.pending } }
        ensures left { left self.new ≤ left self.old }
    {
        match call {
            Call::Reset => {
                self.place += 1;
                Showing::Removal(self.clear())
            }
            Call::Close => {
                self.place += 1;
                Showing::Removal(self.shut())
            }
            Call::Take(_) => {
                self.take();
                Showing::Nothing
            }
            Call::Ground(to) => {
                self.set_ground(*to);
                Showing::Nothing
            }
            Call::Encode(Handed::Gone) => {
                self.enter();
                Showing::Nothing
            }
            Call::Encode(Handed::Kept) => {
                self.enter();
                Showing::Nothing
            }
            Call::Encode(Handed::Cloned(_)) => unreachable!(),
            Call::Configure(_) => unreachable!(),
            Call::Decode(_) => unreachable!(),
            Call::Flush => unreachable!(),
        }
    }

    /// A call that is not refused. The answer is what it shows.
    fn accept(&mut self, call: &Call) -> Result<Showing, NoMemory>
        requires { self.old.place + 1 < 2 ^ 64 }
        ensures ok { OnOk result (self.new ≡ accepted call.now self.old) }
        ensures showing { IfOk result (λ s. shown_of s
            ≡ record { turn = None; events = accepted_shows call.now self.old.pending }) }
        ensures left { left self.new ≤ left self.old + 7 }
        ensures kept { sends call.now ≡ false → left self.new ≤ left self.old }
        ensures cause { OnErr result (sends call.now ≡ true) }
        ensures err { OnErr result (self.new ≡ self.old) }
    {
        if call.sends() {
            self.queue(call)?;
            Ok(Showing::Nothing)
        } else {
            Ok(self.make(call))
        }
    }

    /// A call: refused, made at once, or queued, over the same shared bytes, with a place for each later step that comes of
    /// it. Memory is wanted only of a call that sends a message, and then all is as it was.
    pub fn call(&mut self, call: &Call) -> Result<Answer, NoMemory>
        requires { self.old.place + 1 < 2 ^ 64 }
        ensures ok { OnOk result
            (self.new ≡ after_call (call_error call.now self.old) call.now self.old) }
        ensures answer { let error = call_error call.now self.old in
            IfOk result (IsAnswer self.old.place (exception_of call.now error)
            (record {
              turn = None;
              events = call_shows call.now self.old.place self.old.pending error;
            })) }
        ensures left { left self.new ≤ left self.old + 7 }
        ensures kept { sends call.now ≡ false → left self.new ≤ left self.old }
        ensures cause { OnErr result (sends call.now ≡ true) }
        ensures err { OnErr result (self.new ≡ self.old) }
    {
        let place = self.place;
        let error = self.error_of(call);
        let exception = call.exception(error);
        let showing = match error {
            None => self.accept(call)?,
            Some(error) => {
                let promise = call.promise(place);
                self.enter();
                Showing::of_refused(promise, error)
            }
        };
        Ok(Answer {
            place,
            exception,
            showing,
        })
    }
}
