// A codec at work in a replay.
ghost use Rattle.std.specs.Prelude.{◌≡◌, ◌≤◌, Bool, [], ◌∷◌, ◌++◌, ℕ, Option, IfOk, IfSome, OnOk, OnErr, OnSome, IfNone, length, map, None, Some, is_some, not, option_map, true, false};
ghost use Rattle.codec_accounts.specs.Codec.{new_codec, state_of, next_by, after_entry, slots_by, IsGivable};
ghost use Rattle.codec_core.specs.declared.out.Out.{Out};
ghost use Rattle.codec_core.specs.Codec.{state_at, Makes as CoreMakes, KeepsRunning, IsBack, kept_box, handed_back, box_stays, closes_now};
ghost use Rattle.codec_core.specs.Owning.{IsOwnJob};
ghost use Rattle.codec_core.specs.Job.{IsJobOf, IsEndOf, outcome_of, wants};
ghost use Rattle.codec_model.specs.declared.entry.Entry.TheVariants as entry;
ghost use Rattle.codec_model.specs.Control.{kind_of};
ghost use Rattle.codec_model.specs.Held.{held_in, in_order, adds_held, lets_go};
ghost use Rattle.codec_model.specs.Replay.{State, may_call, sends, call_error, encode_error, answer_to};
ghost use Rattle.codec_model.specs.Shown.{each_shown, exception_of};
ghost use Rattle.media_variables.specs.Held.{AreApart, pair_of};
ghost use Rattle.media_variables.specs.Variables.{Media};
ghost use Rattle.run_model.specs.Recorded.{promise_after};
ghost use Rattle.run_model.specs.Follow.{outcome_for, start_entry, done_entry, turn_entry, reclaim_entry, item_entry};
ghost use Rattle.wc_replay.specs.Desk.{box_out, box_in, pairs_in, waiting_if, media_without, LacksBox, Makes, IsNext};

use crate::boxes::{fill, give, let_go};
use crate::showings::all_shown;
use codec_core::{DoneJob, Job};
use codec_drive::run;
use codec_media::{HoldingCore, Removed, Reply};
use codec_model::{Call, CodecState, Entry, Opening, PromiseState, Shown};
use coder_api::{Coder, Unit};
use media_variables::CallerMedia;
use script_types::OrderItem;
use segmented_list::SegmentedList;
use slot_registry::Slots;
use std::alloc::Global;
use std::marker::Model;
use wc_base::{By, DomError, NoMemory, Who};
use wc_pool::MediaRef;

/// A codec with the references that it holds, and the job of its running item with the entry that refused it a box.
#[derive(Drop)]
pub(crate) struct Desk<C: Coder> {
    core: HoldingCore<C>,
    job: Option<Job<C>>,
    refusal: Option<u64>,
}

impl<C: Coder> Model for Desk<C> {
    ghost use Rattle.codec_accounts.specs.Codec.{CodecValue};
    ghost use Rattle.wc_replay.specs.Desk.{IsDesk, holding_of};

    ghost Value = { CodecValue };

    ghost view = { λ d. record { opening = d.core.codec.opening; history = d.core.codec.history; holding = holding_of d.core.codec.slot d.job d.refusal } };

    ghost invariant = { λ d. IsDesk d.core.codec d.job d.refusal };
}

/// What a call came to: its entry's place, and its exception, if it has one.
#[derive(Clone, Copy, Debug, PartialEq, Eq)]
pub(crate) struct Answer {
    pub(crate) place: u64,
    pub(crate) error: Option<DomError>,
}

/// The next output of a codec, with its number.
#[derive(Drop)]
pub(crate) struct Output {
    pub(crate) number: u64,
    pub(crate) unit: Unit,
}

impl<C: Coder> Desk<C> {
    pub(crate) fn open(alloc: Global, opening: Opening) -> Result<Desk<C>, NoMemory>
        requires low { 1 ≤ opening.saturation }
        requires high { opening.saturation ≤ 64 }
        ensures { IfOk result (λ d. d ≡ new_codec opening) }
    {
        let core = HoldingCore::open(alloc, opening.kind, opening.saturation, 0)?;
        Ok(Desk {
            core,
            job: None,
            refusal: None,
        })
    }

    /// A call of a caller, of the codec with this number, with the reference that it brings, if it brings one. The box that
    /// it lets go goes back, and the references that it lets go end.
    pub(crate) fn call(
        &mut self,
        codec: u32,
        slots: &mut Slots<C>,
        media: &mut CallerMedia,
        who: Who,
        call: Call,
        held: Option<MediaRef>,
    ) -> Result<Answer, NoMemory>
        requires may { may_call call (state_of self.old).control ≡ true }
        requires held { map pair_of (in_order held) ≡ adds_held (entry.Call who call) }
        requires givable { IsGivable slots.old.history
            (next_by codec self.old) self.old.holding.box }
        requires lent { AreApart media.old.pool media.old.variables
            (lets_go (entry.Call who call) (state_of self.old)) }
        ensures made { OnOk result
            (self.new ≡ after_entry codec (entry.Call who call) slots.old self.old) }
        ensures slots { OnOk result
            (slots.new ≡ slots_by codec (entry.Call who call) slots.old self.old) }
        ensures media { OnOk result
            (media.new
            ≡ media_without (next_by codec self.old)
            (lets_go (entry.Call who call) (state_of self.old)) media.old) }
        ensures place { IfOk result (λ a. a.place ≡ length self.old.history) }
        ensures error { IfOk result
            (λ a. a.error ≡ exception_of call (call_error call (state_of self.old).control)) }
    {
        let reply = ask(&mut self.core, who, call, held)?;
        let place = reply.place;
        let by = By::Codec { codec, place };
        media.end_all(by, reply.media);
        give(slots, by, reply.coder);
        Ok(Answer {
            place,
            error: reply.exception,
        })
    }

    /// The first output that was shown and not taken yet, again, if one is left.
    pub(crate) fn next_output(&self) -> Result<Option<Output>, NoMemory>
        ensures { IfOk result (IsNext self.now) }
    {
        let core = self.core.core();
        match core.next_output() {
            Some(unit) => Ok(Some(Output {
                number: core.taken(),
                unit: unit.copy()?,
            })),
            None => Ok(None),
        }
    }

    /// The error with which an encode would be refused now, of data that is detached or is not.
    pub(crate) fn encode_refusal(&self, detached: bool) -> Option<DomError>
        ensures { result ≡ encode_error detached (state_of self.now).control }
    {
        self.core.encode_refusal(detached)
    }

    /// A start: the front item's job goes out, with the box that it needs or the entry that refused it one. The callers'
    /// media stay.
    fn start(&mut self, codec: u32, slots: &mut Slots<C>) -> Result<(), NoMemory>
        requires givable { IsGivable slots.old.history
            (next_by codec self.old) self.old.holding.box }
        ensures { (m : Media) → OnOk result
            (Makes codec (start_entry self.old) slots.old slots.new m m self.old self.new) }
    {
        let Some(job) = self.core.start() else {
            return Ok(());
        };
        let place = job.place();
        let (job, answer) = fill(job, slots, By::Codec { codec, place });
        self.job = Some(job);
        self.refusal = None;
        self.refusal = answer?;
        Ok(())
    }

    /// The end of the running item: its job is done, or ends for want of memory where it is starved; the box that it lets
    /// go goes back, and its reference ends. The answer is whether memory was wanted.
    fn done(
        &mut self,
        alloc: Global,
        codec: u32,
        slots: &mut Slots<C>,
        media: &mut CallerMedia,
        moment: u64,
        starved: bool,
    ) -> bool
        requires givable { IsGivable slots.old.history
            (next_by codec self.old) self.old.holding.box }
        requires lent { AreApart media.old.pool media.old.variables
            (held_in (state_of self.old)) }
        ensures { Makes codec (done_entry result moment self.old) slots.old slots.new
            media.old media.new self.old self.new }
    {
        if let Some(job) = self.job.take() {
            let done = end_of_job(alloc, job, self.refusal.take(), starved);
            let wanted = done.wants_memory();
            let back = self.core.done(done, moment);
            let place = back.place;
            media.end_one(By::Codec { codec, place }, back.media);
            give(slots, By::Codec { codec, place }, back.coder);
            wanted
        } else {
            starved
        }
    }

    /// A turn: the front task runs, the box that it lets go goes back, and the references end.
    fn turn(&mut self, codec: u32, slots: &mut Slots<C>, media: &mut CallerMedia)
        requires givable { IsGivable slots.old.history
            (next_by codec self.old) self.old.holding.box }
        requires lent { AreApart media.old.pool media.old.variables
            (held_in (state_of self.old)) }
        ensures { Makes codec (turn_entry self.old) slots.old slots.new
            media.old media.new self.old self.new }
    {
        if let Some((place, removed)) = run_task(&mut self.core) {
            let_go(slots, media, By::Codec { codec, place }, removed);
        }
    }

    /// A reclaim at a moment in microseconds, where it is lawful; the box that it lets go goes back, and the references end.
    fn reclaim(&mut self, codec: u32, slots: &mut Slots<C>, media: &mut CallerMedia, moment: u64)
        requires givable { IsGivable slots.old.history
            (next_by codec self.old) self.old.holding.box }
        requires lent { AreApart media.old.pool media.old.variables
            (held_in (state_of self.old)) }
        ensures { Makes codec (reclaim_entry moment self.old) slots.old slots.new
            media.old media.new self.old self.new }
    {
        if let Some(removed) = self.core.reclaim(moment) {
            let place = removed.place;
            let_go(slots, media, By::Codec { codec, place }, Some(removed));
        }
    }

    /// An item of the order that names this codec, the one with this number; nothing where it finds nothing to do. The
    /// answer is whether its end wanted memory, as it does where it is starved; that alone stands for what is no end.
    pub(crate) fn take(
        &mut self,
        alloc: Global,
        codec: u32,
        slots: &mut Slots<C>,
        media: &mut CallerMedia,
        item: OrderItem,
        starved: bool,
    ) -> Result<bool, NoMemory>
        requires givable { IsGivable slots.old.history
            (next_by codec self.old) self.old.holding.box }
        requires lent { AreApart media.old.pool media.old.variables
            (held_in (state_of self.old)) }
        ensures { IfOk result
            (λ wants. Makes codec (item_entry wants item self.old) slots.old slots.new
            media.old media.new self.old self.new) }
    {
        match item {
            OrderItem::Caller(_) => {}
            OrderItem::Start(_) => self.start(codec, slots)?,
            OrderItem::Done { codec: _, at } => {
                return Ok(self.done(alloc, codec, slots, media, at, starved));
            }
            OrderItem::Turn(_) => self.turn(codec, slots, media),
            OrderItem::Reclaim { codec: _, at } => self.reclaim(codec, slots, media, at),
        }
        Ok(starved)
    }

    /// The number of entries, the state, and the number of coded messages in the queue.
    pub(crate) fn look(&self) -> (u64, CodecState, u64)
        ensures entries { result.0 ≡ length self.now.history }
        ensures state { result.1 ≡ (state_of self.now).control.phase }
        ensures size { result.2 ≡ (state_of self.now).control.size }
    {
        self.core.core().look()
    }

    /// How the promise of the flush at this place stands.
    pub(crate) fn end_of(&self, promise: u64) -> PromiseState
        ensures { result ≡ promise_after self.now.opening self.now.history promise }
    {
        self.core.core().end_of(promise)
    }

    /// The kind and the saturation that it was opened with.
    pub(crate) fn opening(&self) -> Opening
        ensures { result ≡ self.now.opening }
    {
        self.core.core().opening()
    }

    /// The history, and what each entry showed.
    pub(crate) fn into_trace(
        self,
        alloc: Global,
    ) -> Result<(SegmentedList<Entry>, SegmentedList<Shown>), NoMemory>
        ensures entries { IfOk result (λ t. t.0 ≡ self.history) }
        ensures shown { IfOk result (λ t. t.1 ≡ each_shown self.opening self.history) }
    {
        let (entries, showings, _) = self.core.into_core().into_parts();
        let shown = all_shown(alloc, showings)?;
        Ok((entries, shown))
    }
}

// Makes the place that a call takes which sends no message.
fn reserve_for<C: Coder>(core: &mut HoldingCore<C>, call: &Call) -> Result<(), NoMemory>
    ensures spare { OnOk result (sends call.now ≡ false → 1 ≤ core.new.codec.spare) }
    ensures codec { core.new.codec
        ≡ record core.old.codec { spare = core.new.codec.spare } }
    ensures working { core.new.working ≡ core.old.working }
    ensures waiting { core.new.waiting ≡ core.old.waiting }
{
    if call.sends() {
        Ok(())
    } else {
        core.reserve(1)
    }
}

// A call on a core: its entry is made, or memory was wanted and it stands as it did.
fn ask<C: Coder>(
    core: &mut HoldingCore<C>,
    who: Who,
    call: Call,
    held: Option<MediaRef>,
) -> Result<Reply<C>, NoMemory>
    requires may { may_call call (state_at core.old.codec).control ≡ true }
    requires held { map pair_of (in_order held) ≡ adds_held (entry.Call who call) }
    ensures made { OnOk result
        (CoreMakes core.old.codec core.new.codec (entry.Call who call)) }
    ensures place { IfOk result (λ r. r.place ≡ length core.old.codec.history) }
    ensures error { let error = call_error call (state_at core.old.codec).control in
        IfOk result (λ r. r.exception ≡ exception_of call error) }
    ensures handed { let stays = box_stays who call (state_at core.old.codec) in
        IfOk result (λ r. r.coder ≡ handed_back stays core.old.codec.slot) }
    ensures gone { let old = state_at core.old.codec in
        IfOk result (λ r. map pair_of r.media ≡ lets_go (entry.Call who call) old) }
    ensures slot { let stays = box_stays who call (state_at core.old.codec) in
        OnOk result (core.new.codec.slot ≡ kept_box stays core.old.codec.slot) }
    ensures running { KeepsRunning (state_at core.old.codec) (state_at core.new.codec) }
    ensures out { core.new.codec.out ≡ core.old.codec.out }
    ensures err { OnErr result
        (core.new.codec ≡ record core.old.codec { spare = core.new.codec.spare }) }
{
    reserve_for(core, &call)?;
    match core.call(who, call, held) {
        Ok(reply) => Ok(reply),
        Err(_) => Err(NoMemory),
    }
}

// The end of a job: it is starved, or no box was free, or it did its work, or memory was wanted.
fn end_of_job<C: Coder>(
    alloc: Global,
    job: Job<C>,
    refusal: Option<u64>,
    starved: bool,
) -> DoneJob<C>
    requires { LacksBox job refusal }
    ensures end { (s : State) → IsJobOf s job → IsEndOf s result }
    ensures own { (out : Out) → IsOwnJob out job → IsBack out result.coder }
    ensures outcome { (s : State) → IsJobOf s job
        → outcome_of result.ended
        ≡ outcome_for (wants result.ended) refusal
        (answer_to (kind_of job.work) s.running_given) }
    ensures epoch { result.epoch ≡ job.epoch }
    ensures number { result.number ≡ job.number }
    ensures slot { option_map box_out result.coder ≡ option_map box_out job.coder }
{
    match refusal {
        Some(entry) => {
            if starved {
                job.no_memory()
            } else {
                job.no_slot(entry)
            }
        }
        None => {
            if starved || job.lacks().is_some() {
                job.no_memory()
            } else {
                run(alloc, job)
            }
        }
    }
}

// Runs the front task, if there is one, with what it lets go where it closes the codec.
fn run_task<C: Coder>(core: &mut HoldingCore<C>) -> Option<(u64, Option<Removed<C>>)>
    ensures none { IfNone result ((state_at core.old.codec).control.tasks ≡ []) }
    ensures same { IfNone result (core.new.codec ≡ core.old.codec) }
    ensures made { OnSome result (CoreMakes core.old.codec core.new.codec entry.Turn) }
    ensures place { IfSome result (λ t. t.0 ≡ length core.old.codec.history) }
    ensures handed { let closes = closes_now (state_at core.old.codec).control in
        IfSome result (λ t. box_in t.1 ≡ handed_back (not closes) core.old.codec.slot) }
    ensures gone { let closes = closes_now (state_at core.old.codec).control in
        IfSome result (λ t. pairs_in t.1 ≡ waiting_if closes (state_at core.old.codec)) }
    ensures slot { let closes = closes_now (state_at core.old.codec).control in
        OnSome result (core.new.codec.slot ≡ kept_box (not closes) core.old.codec.slot) }
    ensures running { OnSome result
        (KeepsRunning (state_at core.old.codec) (state_at core.new.codec)) }
    ensures out { core.new.codec.out ≡ core.old.codec.out }
{
    let turned = core.turn()?;
    Some((turned.place, turned.removed))
}
