// A codec whose history is made again, one entry after another.
ghost use Rattle.std.specs.Prelude.{◌≡◌, ◌==◌, ◌≤◌, ◌&&◌, [], IfOk, IfNone, IfSome, OnOk, OnSome, None, Some, slice_get, not, true, false};
ghost use Rattle.codec_core.specs.Codec.{RemovedValue, state_at, Makes, KeepsRunning, IsBack, box_stays, kept_box, handed_back, closes_now};
ghost use Rattle.codec_core.specs.Job.{IsEndOf, outcome_of};
ghost use Rattle.codec_model.specs.declared.entry.Entry.TheVariants as entry;
ghost use Rattle.codec_model.specs.declared.entry.Outcome.TheVariants as outcome;
ghost use Rattle.codec_model.specs.Control.{may_take};
ghost use Rattle.codec_model.specs.Replay.{may_call};
ghost use Rattle.codec_judge.specs.Judge.{IsJudged, Judges, is_worked, box_removed, may_hand_in, outcome_in};
ghost use Rattle.codec_judge.specs.Lender.{LenderValue, id_in};

use crate::boxes::{emptied, filled};
use crate::lender::Lender;
use codec_core::{Core, DoneJob, Job, Removed, Reply};
use codec_model::{Call, CodecState, Entry, Handed, Outcome};
use coder_api::{Coder, SlotBox};
use std::alloc::Global;
use wc_base::{NoMemory, Who};

/// A codec, and the job of the item that is at work.
#[derive(Drop)]
pub(crate) struct Judge<C: Coder> {
    pub(crate) core: Core<C>,
    pub(crate) job: Option<Job<C>>,
}

// Whether an encode may tell so what became of its medium.
fn may_hand(handed: &Handed, state: CodecState) -> bool
    ensures { result ≡ may_hand_in handed.now state }
{
    match handed {
        Handed::Gone => true,
        Handed::Kept => state != CodecState::Configured,
        Handed::Cloned(_) => state == CodecState::Configured,
    }
}

// Whether the output with this number is the next that is taken.
fn may_take<C: Coder>(core: &Core<C>, unit: u64) -> bool
    ensures { result ≡ may_take unit (state_at core.now).control }
{
    match core.next_output() {
        Some(_) => unit == core.taken(),
        None => false,
    }
}

// Whether the call can be made.
fn may_call<C: Coder>(core: &Core<C>, call: &Call) -> bool
    ensures { result ≡ may_call call.now (state_at core.now).control }
{
    match call {
        Call::Encode(handed) => may_hand(handed, core.look().1),
        Call::Take(unit) => may_take(core, *unit),
        _ => true,
    }
}

// Makes the place that a call takes which sends no message.
fn reserve_one<C: Coder>(core: &mut Core<C>) -> Result<(), NoMemory>
    ensures spare { OnOk result (1 ≤ core.new.spare) }
    ensures same { OnOk result (core.new ≡ record core.old { spare = core.new.spare }) }
{
    if core.spare() == 0 {
        core.reserve(1024)?;
    }
    Ok(())
}

// Makes a call.
fn ask<C: Coder>(core: &mut Core<C>, who: Who, call: &Call) -> Result<Reply<C>, NoMemory>
    requires { may_call call.now (state_at core.old).control ≡ true }
    ensures made { OnOk result (Makes core.old core.new (entry.Call who call.now)) }
    ensures coder { let stays = box_stays who call.now (state_at core.old) in
        IfOk result (λ r. r.coder ≡ handed_back stays core.old.slot) }
    ensures slot { let stays = box_stays who call.now (state_at core.old) in
        OnOk result (core.new.slot ≡ kept_box stays core.old.slot) }
    ensures running { OnOk result (KeepsRunning (state_at core.old) (state_at core.new)) }
    ensures out { OnOk result (core.new.out ≡ core.old.out) }
{
    let again = call.copy()?;
    reserve_one(core)?;
    core.call(who, again)
}

// The box that a removal hands back.
fn box_of<C: Coder>(removed: Option<Removed<C>>) -> Option<SlotBox<C>>
    ensures { result ≡ box_removed removed }
{
    match removed {
        Some(removed) => removed.coder,
        None => None,
    }
}

// Runs the front task, if there is one, with the box that it hands back.
#[tactic(auto, using(crate::proofs::Judging::removed_box))]
fn run_task<C: Coder>(core: &mut Core<C>) -> Option<Option<SlotBox<C>>>
    ensures none { IfNone result ((state_at core.old).control.tasks ≡ []) }
    ensures same { IfNone result (core.new ≡ core.old) }
    ensures made { OnSome result (Makes core.old core.new entry.Turn) }
    ensures back { let closes = closes_now (state_at core.old).control in
        IfSome result (λ b. b ≡ handed_back (not closes) core.old.slot) }
    ensures slot { let closes = closes_now (state_at core.old).control in
        OnSome result (core.new.slot ≡ kept_box (not closes) core.old.slot) }
    ensures running { OnSome result (KeepsRunning (state_at core.old) (state_at core.new)) }
    ensures out { core.new.out ≡ core.old.out }
{
    let turned = core.turn()?;
    Some(box_of(turned.removed))
}

// Ends the item at work; its box comes home, or goes back to the lender.
pub(crate) fn end_job<C: Coder>(
    core: &mut Core<C>,
    lender: &mut Lender<C>,
    done: DoneJob<C>,
    moment: u64,
) -> Result<(), NoMemory>
    requires end { IsEndOf (state_at core.old) done }
    requires own { IsBack core.old.out done.coder }
    requires out { lender.old.out ≡ id_in done.coder }
    ensures made { OnOk result (Makes core.old core.new
        (entry.Done done.epoch done.number moment (outcome_of done.ended))) }
    ensures idle { OnOk result ((state_at core.new).control.running ≡ None) }
    ensures out { OnOk result (lender.new.out ≡ id_in core.new.slot) }
    ensures home { OnOk result (lender.new.home ≡ lender.old.home) }
{
    let back = core.done(done, moment);
    lender.settle(back.coder)
}

// Whether the entry at a place is an end of this outcome.
fn is_end_by<C: Coder>(core: &Core<C>, place: u64, outcome: Outcome) -> bool
    ensures yes { result ≡ true
        → outcome_in (slice_get core.now.history place) ≡ Some outcome }
    ensures no { result ≡ false
        → outcome_in (slice_get core.now.history place) ≡ Some outcome → ⊥ }
{
    match core.entry(place) {
        Some(
            Entry::Done {
                epoch: _,
                item: _,
                moment: _,
                outcome: made,
            },
        ) => outcome == *made,
        _ => false,
    }
}

// Whether a job is of the item with this epoch and number.
fn is_of<C: Coder>(job: &Job<C>, epoch: u64, item: u64) -> bool
    ensures { result ≡ ((job.now.epoch == epoch) && (job.now.number == item)) }
{
    let (current, number) = job.number();
    current == epoch && number == item
}

impl<C: Coder> Judge<C> {
    /// Makes a call, where it is lawful.
    fn call(&mut self, who: Who, call: &Call, lender: &mut Lender<C>) -> Result<bool, NoMemory>
        requires { IsJudged self.old.core self.old.job lender.old }
        ensures { IfOk result (λ b. Judges lender.old self.old.core
            (entry.Call who call.now) b self.new.core self.new.job lender.new) }
    {
        if !may_call(&self.core, call) {
            return Ok(false);
        }
        let reply = ask(&mut self.core, who, call)?;
        lender.settle(reply.coder)?;
        Ok(true)
    }

    /// Starts the front item, and tells whether it is this one.
    fn start(&mut self, epoch: u64, item: u64) -> bool
        ensures { (l : LenderValue) → IsJudged self.old.core self.old.job l
            → Judges l self.old.core (entry.Start epoch item) result self.new.core self.new.job l }
    {
        let Some(job) = self.core.start() else {
            return false;
        };
        let same = is_of(&job, epoch, item);
        self.job = Some(job);
        same
    }

    /// Runs the front task, where there is one.
    fn turn(&mut self, lender: &mut Lender<C>) -> Result<bool, NoMemory>
        requires { IsJudged self.old.core self.old.job lender.old }
        ensures { IfOk result (λ b. Judges lender.old self.old.core
            entry.Turn b self.new.core self.new.job lender.new) }
    {
        let Some(back) = run_task(&mut self.core) else {
            return Ok(false);
        };
        lender.settle(back)?;
        Ok(true)
    }

    /// Reclaims the codec, where that is lawful.
    fn reclaim(&mut self, moment: u64, lender: &mut Lender<C>) -> Result<bool, NoMemory>
        requires { IsJudged self.old.core self.old.job lender.old }
        ensures { IfOk result (λ b. Judges lender.old self.old.core
            (entry.Reclaim moment) b self.new.core self.new.job lender.new) }
    {
        let Some(removed) = self.core.reclaim(moment) else {
            return Ok(false);
        };
        lender.settle(removed.coder)?;
        Ok(true)
    }

    /// Does the work of the item at work, and tells whether it ends so.
    fn perform(
        &mut self,
        alloc: Global,
        job: Job<C>,
        moment: u64,
        outcome: Outcome,
        lender: &mut Lender<C>,
    ) -> Result<bool, NoMemory>
        requires worked { is_worked outcome ≡ true }
        requires stands { IsJudged self.old.core (Some job) lender.old }
        ensures { IfOk result (λ b. Judges lender.old self.old.core
            (entry.Done job.epoch job.number moment outcome) b self.new.core self.new.job lender.new) }
    {
        let (ready, served) = filled(job, lender)?;
        if !served {
            self.job = Some(ready);
            return Ok(false);
        }
        let done = ready.perform(alloc);
        if done.wants_memory() {
            return Err(NoMemory);
        }
        let (place, _, _) = self.core.look();
        self.job = None;
        end_job(&mut self.core, lender, done, moment)?;
        Ok(is_end_by(&self.core, place, outcome))
    }

    /// Ends the item at work for want of a box, where it lacks one.
    fn refuse(
        &mut self,
        job: Job<C>,
        moment: u64,
        refusal: u64,
        lender: &mut Lender<C>,
    ) -> Result<bool, NoMemory>
        requires { IsJudged self.old.core (Some job) lender.old }
        ensures { IfOk result (λ b. Judges lender.old self.old.core
            (entry.Done job.epoch job.number moment (outcome.NoSlot refusal)) b
            self.new.core self.new.job lender.new) }
    {
        match job.lacks() {
            None => {
                self.job = Some(job);
                Ok(false)
            }
            Some(_) => {
                let ready = emptied(job, lender)?;
                self.job = None;
                let done = ready.no_slot(refusal);
                end_job(&mut self.core, lender, done, moment)?;
                Ok(true)
            }
        }
    }

    /// Ends the item at work for want of memory.
    fn starve(&mut self, job: Job<C>, moment: u64, lender: &mut Lender<C>) -> Result<bool, NoMemory>
        requires { IsJudged self.old.core (Some job) lender.old }
        ensures { IfOk result (λ b. Judges lender.old self.old.core
            (entry.Done job.epoch job.number moment outcome.NoMemory) b
            self.new.core self.new.job lender.new) }
    {
        let ready = emptied(job, lender)?;
        self.job = None;
        let done = ready.no_memory();
        end_job(&mut self.core, lender, done, moment)?;
        Ok(true)
    }

    /// Ends the item at work by this outcome, where that is its own.
    fn end(
        &mut self,
        alloc: Global,
        job: Job<C>,
        moment: u64,
        outcome: Outcome,
        lender: &mut Lender<C>,
    ) -> Result<bool, NoMemory>
        requires { IsJudged self.old.core (Some job) lender.old }
        ensures { IfOk result (λ b. Judges lender.old self.old.core
            (entry.Done job.epoch job.number moment outcome) b self.new.core self.new.job lender.new) }
    {
        match outcome {
            Outcome::Ran { units: _ } => self.perform(alloc, job, moment, outcome, lender),
            Outcome::Refused => self.perform(alloc, job, moment, outcome, lender),
            Outcome::NoSlot { entry } => self.refuse(job, moment, entry, lender),
            Outcome::NoMemory => self.starve(job, moment, lender),
        }
    }

    /// Ends the item at work, where this is its end.
    fn done(
        &mut self,
        alloc: Global,
        epoch: u64,
        item: u64,
        moment: u64,
        outcome: Outcome,
        lender: &mut Lender<C>,
    ) -> Result<bool, NoMemory>
        requires { IsJudged self.old.core self.old.job lender.old }
        ensures { IfOk result (λ b. Judges lender.old self.old.core
            (entry.Done epoch item moment outcome) b self.new.core self.new.job lender.new) }
    {
        let Some(job) = self.job.take() else {
            return Ok(false);
        };
        if is_of(&job, epoch, item) {
            self.end(alloc, job, moment, outcome, lender)
        } else {
            self.job = Some(job);
            Ok(false)
        }
    }

    /// Makes an entry, where it is lawful, and tells whether it is.
    pub(crate) fn take(
        &mut self,
        alloc: Global,
        entry: &Entry,
        lender: &mut Lender<C>,
    ) -> Result<bool, NoMemory>
        requires { IsJudged self.old.core self.old.job lender.old }
        ensures { IfOk result (λ b. Judges lender.old self.old.core
            entry.now b self.new.core self.new.job lender.new) }
    {
        match entry {
            Entry::Call { who, call } => self.call(*who, call, lender),
            Entry::Start { epoch, item } => Ok(self.start(*epoch, *item)),
            Entry::Done {
                epoch,
                item,
                moment,
                outcome,
            } => self.done(alloc, *epoch, *item, *moment, *outcome, lender),
            Entry::Turn => self.turn(lender),
            Entry::Reclaim { moment } => self.reclaim(*moment, lender),
        }
    }
}
