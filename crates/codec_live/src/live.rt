// One codec that keeps no history.
ghost use Rattle.std.specs.Prelude.{◌≡◌, ◌==◌, ◌≤◌, ◌<◌, ◌+◌, ◌^◌, ◌&&◌, IfOk, IfNone, IfSome, OnSome, OnOk, OnErr, None, Some, [], ◌∷◌, ◌++◌, List, option_map, not, is_none, true, false};
ghost use Rattle.wc_base.specs.declared.who.Who.{Who};
ghost use Rattle.codec_model.specs.declared.entry.Entry.{Entry};
ghost use Rattle.codec_model.specs.declared.entry.Entry.TheVariants as entry;
ghost use Rattle.codec_model.specs.Control.{opening_control, start_item, may_reclaim, after_done};
ghost use Rattle.codec_model.specs.Replay.{may_call, call_error, sends, removes, encode_error, missing_coder};
ghost use Rattle.codec_model.specs.Shown.{exception_of, shown_of};
ghost use Rattle.codec_live.specs.Job.{IsJobOf, IsEndOf, outcome_of, missing_id};
ghost use Rattle.codec_live.specs.Live.{StandsAfter, GoesFrom, GoesOn, BoxGoes, state_after, nothing_shown, is_at_work, kept_box, handed_back, closes_now, item_parts, progress_of};

use crate::job::{DoneJob, Job};
use crate::parts::{box_stays, hand_back};
use crate::step::Step;
use codec_model::{Call, CodecState, Kind, Opening};
use codec_queues::Machine;
use coder_api::{Coder, SlotBox};
use std::alloc::Global;
use std::marker::Model;
use std::mem;
use wc_base::{DomError, Ground, NoMemory};

/// One codec: its state machine, and the box that it holds while no item is at work. It keeps none of its entries and
/// nothing of what they showed. Each entry has a number, its place; there are 2^64 of them.
#[derive(Drop)]
pub struct LiveCore<C: Coder> {
    slot: Option<SlotBox<C>>,
    machine: Machine,
}

impl<C: Coder> Model for LiveCore<C> {
    ghost use Rattle.codec_live.specs.Live.{Live, IsReadyHome};

    ghost Value = { Live };

    ghost view = { λ c. record { control = c.machine; slot = c.slot } };

    ghost invariant = { λ c. IsReadyHome c.slot c.machine };
}

impl<C: Coder> LiveCore<C> {
    /// A codec that was opened, and not configured yet.
    pub fn open(alloc: Global, kind: Kind, saturation: u32) -> Result<LiveCore<C>, NoMemory>
        requires low { 1 ≤ saturation }
        requires high { saturation ≤ 64 }
        ensures stands { IfOk result (StandsAfter []) }
        ensures opened { IfOk result
            (λ c. c
            ≡ record {
              control = opening_control (record { kind = kind; saturation = saturation });
              slot = None;
            }) }
    {
        let machine = Machine::open(alloc, Opening { kind, saturation })?;
        Ok(LiveCore {
            slot: None,
            machine,
        })
    }

    /// The kind and the saturation that it was opened with.
    pub fn opening(&self) -> Opening
        ensures { result ≡ self.now.control.opening }
    {
        self.machine.opening()
    }

    /// The place of the next entry: how many there were.
    pub fn place(&self) -> u64
        ensures { result ≡ self.now.control.place }
    {
        self.machine.place()
    }

    /// The state of the codec.
    pub fn phase(&self) -> CodecState
        ensures { result ≡ self.now.control.phase }
    {
        self.machine.phase()
    }

    /// The number of coded messages in the queue.
    pub fn size(&self) -> u64
        ensures { result ≡ self.now.control.size }
    {
        self.machine.size()
    }

    /// The moment in microseconds when the last item of this epoch ended, of a configured codec.
    pub fn progress(&self) -> Option<u64>
        ensures { result ≡ progress_of self.now.control }
    {
        match self.machine.phase() {
            CodecState::Configured => self.machine.progress(),
            CodecState::Unconfigured => None,
            CodecState::Closed => None,
        }
    }

    /// Where the codec is at work.
    pub fn ground(&self) -> Ground
        ensures { result ≡ self.now.control.own_ground }
    {
        self.machine.ground()
    }

    /// How many outputs were taken, which is the number of the next one.
    pub fn taken(&self) -> u64
        ensures { result ≡ self.now.control.taken }
    {
        self.machine.taken()
    }

    /// The error with which an encode would be refused now: of detached data first.
    pub fn encode_refusal(&self, detached: bool) -> Option<DomError>
        ensures { result ≡ encode_error detached self.now.control }
    {
        self.machine.encode_error(detached)
    }

    /// Whether a call can be made now, as it tells what became of an encode's data and which output is taken.
    pub fn may_call(&self, call: &Call) -> bool
        ensures { result ≡ may_call call.now self.now.control }
    {
        self.machine.may_call(call)
    }

    /// Whether the item with this epoch and number is at work.
    pub fn is_at_work(&self, epoch: u64, number: u64) -> bool
        ensures { result ≡ is_at_work self.now.control.running epoch number }
    {
        match self.machine.running() {
            Some(running) => running.epoch == epoch && running.number == number,
            None => false,
        }
    }

    /// A call of a caller (W3C WebCodecs: `configure`, `decode`, `encode`, `flush`, `reset`, `close`; to take an output, and
    /// to tell the codec where it is at work, are our choice). It is an entry, refused or not. A flush is never refused
    /// with an exception: its promise is rejected. Only a call that sends a message may want memory, and then nothing has
    /// changed.
    pub fn call(&mut self, call: &Call) -> Result<Step<C>, NoMemory>
        requires may { may_call call.now self.old.control ≡ true }
        requires place { self.old.control.place + 1 < 2 ^ 64 }
        ensures made { IfOk result
            (λ s. (who : Who)
            → GoesOn self.old self.new (entry.Call who call.now) (shown_of s.answer.showing)) }
        ensures at { IfOk result (λ s. s.answer.place ≡ self.old.control.place) }
        ensures exception { IfOk result
            (λ s. s.answer.exception ≡ exception_of call.now (call_error call.now self.old.control)) }
        ensures coder { IfOk result
            (BoxGoes (not (removes call.now && is_none (call_error call.now self.old.control))) self.old self.new) }
        ensures cause { OnErr result (sends call.now ≡ true) }
        ensures err { OnErr result (self.new ≡ self.old) }
    {
        let removes = call.removes();
        let answer = self.machine.call(call)?;
        let stays = box_stays(removes, answer.exception);
        let coder = hand_back(&mut self.slot, stays);
        Ok(Step { answer, coder })
    }

    /// The front item of the work queue becomes running, and its job leaves with the box that the codec holds. None exactly
    /// where an item is running, the codec is halted, or no item is queued; then nothing has changed.
    pub fn start(&mut self) -> Option<Job<C>>
        requires { self.old.control.place + 1 < 2 ^ 64 }
        ensures none { IfNone result (start_item self.old.control ≡ None) }
        ensures same { IfNone result (self.new ≡ self.old) }
        ensures made { IfSome result
            (λ job. GoesOn self.old self.new (entry.Start job.epoch job.number) nothing_shown) }
        ensures job { IfSome result
            (λ job. (h : List Entry) → StandsAfter h self.old
            → IsJobOf (state_after self.new (h ++ entry.Start job.epoch job.number ∷ [])) job) }
        ensures lacks { IfSome result
            (λ job. (h : List Entry) → StandsAfter h self.old
            → missing_id job ≡ missing_coder (state_after self.old h).given job.work) }
        ensures item { IfSome result
            (λ job. option_map item_parts (start_item self.old.control)
            ≡ Some (job.number, job.work)) }
        ensures epoch { IfSome result (λ job. job.epoch ≡ self.old.control.epoch) }
        ensures place { IfSome result (λ job. job.place ≡ self.old.control.place) }
        ensures coder { IfSome result (λ job. job.coder ≡ self.old.slot) }
        ensures slot { OnSome result (self.new.slot ≡ None) }
        ensures next { OnSome result
            (self.new.control.place ≡ self.old.control.place + 1) }
        ensures work { IfSome result
            (λ job. is_at_work self.new.control.running job.epoch job.number ≡ true) }
    {
        let place = self.machine.place();
        let epoch = self.machine.epoch();
        let item = self.machine.start()?;
        let coder = mem::replace(&mut self.slot, None);
        Some(Job {
            epoch,
            number: item.number,
            place,
            work: item.work,
            coder,
        })
    }

    /// The item at work ends at a moment in microseconds. Its box comes home, or is handed back where the codec was reset
    /// or closed since the item began. What it ends as is the definition's, for each history of whose running item this
    /// is the end. The answer is the box that does not come home, stopped.
    pub fn done(&mut self, d: DoneJob<C>, moment: u64) -> Option<SlotBox<C>>
        requires place { self.old.control.place + 1 < 2 ^ 64 }
        requires own { is_at_work self.old.control.running d.epoch d.number ≡ true }
        ensures made { (h : List Entry) → StandsAfter h self.old
            → IsEndOf (state_after self.old h) d
            → GoesFrom h self.old self.new
            (entry.Done d.epoch d.number moment (outcome_of d.ended)) nothing_shown }
        ensures control { self.new.control ≡ after_done d.ended moment self.old.control }
        ensures slot { self.new.slot ≡ kept_box (d.epoch == self.old.control.epoch) d.coder }
        ensures back { result ≡ handed_back (d.epoch == self.old.control.epoch) d.coder }
    {
        let current = d.epoch == self.machine.epoch();
        let DoneJob {
            epoch: _,
            number: _,
            kind: _,
            ended,
            label,
            mut coder,
        } = d;
        self.machine.done(ended, moment, label);
        let back = hand_back(&mut coder, current);
        self.slot = coder;
        back
    }

    /// The front event task runs. None exactly where no task is queued; then nothing has changed.
    pub fn turn(&mut self) -> Option<Step<C>>
        requires { self.old.control.place + 1 < 2 ^ 64 }
        ensures none { IfNone result (self.old.control.tasks ≡ []) }
        ensures same { IfNone result (self.new ≡ self.old) }
        ensures made { IfSome result
            (λ s. GoesOn self.old self.new entry.Turn (shown_of s.answer.showing)) }
        ensures place { IfSome result (λ s. s.answer.place ≡ self.old.control.place) }
        ensures coder { IfSome result
            (BoxGoes (not (closes_now self.old.control)) self.old self.new) }
    {
        let answer = self.machine.turn()?;
        let closes = answer.showing.closes();
        let coder = hand_back(&mut self.slot, !closes);
        Some(Step { answer, coder })
    }

    /// The codec is reclaimed at a moment in microseconds: closed with `QuotaExceededError`. None exactly where that may
    /// not be: it is not configured, no item of this epoch ended, or the last did less than ten seconds before and it is no
    /// decoder in the background; then nothing has changed.
    pub fn reclaim(&mut self, now: u64) -> Option<Step<C>>
        requires { self.old.control.place + 1 < 2 ^ 64 }
        ensures none { IfNone result (may_reclaim now self.old.control ≡ false) }
        ensures same { IfNone result (self.new ≡ self.old) }
        ensures made { IfSome result
            (λ s. GoesOn self.old self.new (entry.Reclaim now) (shown_of s.answer.showing)) }
        ensures place { IfSome result (λ s. s.answer.place ≡ self.old.control.place) }
        ensures coder { IfSome result (BoxGoes false self.old self.new) }
    {
        let answer = self.machine.reclaim(now)?;
        let coder = hand_back(&mut self.slot, false);
        Some(Step { answer, coder })
    }
}
