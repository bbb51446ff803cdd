// One codec with the references that it holds.
ghost use Rattle.std.specs.Prelude.{◌≡◌, ◌==◌, ◌++◌, ◌∷◌, [], ◌≤◌, ◌+◌, max, IfOk, IfErr, IfNone, IfSome, OnSome, OnOk, OnErr, None, Some, length, map, option_map, not, is_some, true, false};
ghost use Rattle.codec_model.specs.declared.entry.Entry.TheVariants as entry;
ghost use Rattle.codec_model.specs.Control.{start_item, may_reclaim};
ghost use Rattle.codec_model.specs.Held.{in_order, running_pairs, adds_held, lets_go};
ghost use Rattle.codec_model.specs.Replay.{may_call, sends, encode_error, missing_coder};
ghost use Rattle.codec_core.specs.Job.{IsJobOf, IsEndOf, outcome_of, missing_id, stopped_box};
ghost use Rattle.codec_core.specs.Owning.{IsOwnJob, GoesBack};
ghost use Rattle.codec_core.specs.Codec.{state_at, Makes, IsBack, KeepsRunning, Replied, kept_box, handed_back};
ghost use Rattle.codec_core.specs.Codec.{closes_now, item_parts, went_out};
ghost use Rattle.codec_media.specs.Holding.{pair_of, all_of, SameHeld, LetsGo, own_reply, media_gone, media_left};

use crate::queue::{is_removed, let_go, let_go_if, room_for, take_if, with_media};
use crate::reply::{Ended, Removed, Reply, Turned};
use codec_core::{Core, DoneJob, Job};
use codec_model::{Call, Kind, references_are_held};
use coder_api::Coder;
use std::alloc::Global;
use std::collections::VecDeque;
use std::marker::Model;
use wc_base::{DomError, NoMemory, Who};
use wc_pool::MediaRef;

/// One codec, and the references that it holds: that of the running item, and those of the encodes that wait. A contract
/// sees the codec as its history, and the references in the order of their encodes.
#[derive(Drop)]
pub struct HoldingCore<C: Coder> {
    alloc: Global,
    core: Core<C>,
    working: Option<MediaRef>,
    waiting: VecDeque<MediaRef>,
    // The places for all that waits, if it is let go at once.
    freed: Vec<MediaRef>,
}

impl<C: Coder> Model for HoldingCore<C> {
    ghost use Rattle.std.specs.Prelude.{◌≡◌, ◌≤◌, [], vec_len, vec_capacity};
    ghost use Rattle.std.specs.VecDeque.{deque_len};
    ghost use Rattle.codec_media.specs.Holding.{Holding, IsHolding};

    ghost Value = { Holding };

    ghost view = { λ c. record { codec = c.core; working = c.working; waiting = c.waiting.items } };

    ghost invariant = { λ c. IsHolding c.core c.working c.waiting.items
        × (c.freed.items ≡ [])
        × (vec_len c.freed ≡ 0)
        × (deque_len c.waiting ≤ vec_capacity c.freed) };
}

impl<C: Coder> HoldingCore<C> {
    /// A codec with an empty history, which holds nothing, with places for so many entries of callers.
    pub fn open(
        alloc: Global,
        kind: Kind,
        saturation: u32,
        calls: u64,
    ) -> Result<HoldingCore<C>, NoMemory>
        requires low { 1 ≤ saturation }
        requires high { saturation ≤ 64 }
        ensures opening { IfOk result
            (λ c. c.codec.opening ≡ record { kind = kind; saturation = saturation }) }
        ensures history { IfOk result (λ c. c.codec.history ≡ []) }
        ensures slot { IfOk result (λ c. c.codec.slot ≡ None) }
        ensures spare { IfOk result (λ c. calls ≤ c.codec.spare) }
        ensures working { IfOk result (λ c. c.working ≡ None) }
        ensures waiting { IfOk result (λ c. c.waiting ≡ []) }
    {
        let core = Core::open(alloc, kind, saturation, calls)?;
        Ok(HoldingCore {
            alloc,
            core,
            working: None,
            waiting: VecDeque::new(alloc),
            freed: Vec::new(alloc),
        })
    }

    /// The codec, to look at.
    pub fn core(&self) -> &Core<C>
        ensures { result.now ≡ self.now.codec }
    {
        &self.core
    }

    /// The codec alone. The references that it holds are dropped, and stay live in their pool.
    pub fn into_core(self) -> Core<C>
        ensures { result ≡ self.codec }
    {
        self.core
    }

    /// Makes places for at least so many more calls that send no message. After want of memory nothing has changed.
    pub fn reserve(&mut self, calls: u64) -> Result<(), NoMemory>
        ensures ok { let codec = self.old.codec in
            OnOk result (self.new.codec ≡ record codec { spare = max calls codec.spare }) }
        ensures held { SameHeld self.old self.new }
        ensures err { OnErr result (self.new ≡ self.old) }
    {
        self.core.reserve(calls)
    }

    /// The error with which an encode would be refused now: of detached data first.
    pub fn encode_refusal(&self, detached: bool) -> Option<DomError>
        ensures { result ≡ encode_error detached (state_at self.now.codec).control }
    {
        self.core.encode_refusal(detached)
    }

    /// A call of a caller, as `Core::call` makes it. With an encode that is not refused comes the reference that the codec
    /// holds from now on, and with any other call none. A reset or close that is not refused lets go what waits. Memory is
    /// wanted only of a call that sends a message; then nothing has changed, and the reference comes back.
    pub fn call(
        &mut self,
        who: Who,
        call: Call,
        held: Option<MediaRef>,
    ) -> Result<Reply<C>, Option<MediaRef>>
        requires may { may_call call (state_at self.old.codec).control ≡ true }
        requires spare { sends call ≡ false → 1 ≤ self.old.codec.spare }
        requires held { map pair_of (in_order held) ≡ adds_held (entry.Call who call) }
        ensures replied { let old = self.old.codec in
            IfOk result (λ r. Replied old self.new.codec who call (own_reply r)) }
        ensures lets { IfOk result (λ r. GoesBack self.new.codec r.place r.coder) }
        ensures running { KeepsRunning (state_at self.old.codec) (state_at self.new.codec) }
        ensures gone { IfOk result (λ r. r.media ≡ media_gone who call self.old) }
        ensures pairs { let old = state_at self.old.codec in
            IfOk result (λ r. map pair_of r.media ≡ lets_go (entry.Call who call) old) }
        ensures waiting { OnOk result
            (self.new.waiting ≡ media_left who call self.old ++ in_order held) }
        ensures working { self.new.working ≡ self.old.working }
        ensures cause { OnErr result (sends call ≡ true) }
        ensures back { IfErr result (λ h. h ≡ held) }
        ensures err { OnErr result (self.new ≡ self.old) }
    {
        match held {
            Some(held) => match self.call_with(who, call, held) {
                Ok(reply) => Ok(reply),
                Err(held) => Err(Some(held)),
            },
            None => match self.call_alone(who, call) {
                Ok(reply) => Ok(reply),
                Err(NoMemory) => Err(None),
            },
        }
    }

    /// A call that brings no reference.
    fn call_alone(&mut self, who: Who, call: Call) -> Result<Reply<C>, NoMemory>
        requires may { may_call call (state_at self.old.codec).control ≡ true }
        requires spare { sends call ≡ false → 1 ≤ self.old.codec.spare }
        requires alone { adds_held (entry.Call who call) ≡ [] }
        ensures replied { let old = self.old.codec in
            IfOk result (λ r. Replied old self.new.codec who call (own_reply r)) }
        ensures lets { IfOk result (λ r. GoesBack self.new.codec r.place r.coder) }
        ensures running { KeepsRunning (state_at self.old.codec) (state_at self.new.codec) }
        ensures gone { IfOk result (λ r. r.media ≡ media_gone who call self.old) }
        ensures pairs { let old = state_at self.old.codec in
            IfOk result (λ r. map pair_of r.media ≡ lets_go (entry.Call who call) old) }
        ensures waiting { OnOk result (self.new.waiting ≡ media_left who call self.old) }
        ensures working { self.new.working ≡ self.old.working }
        ensures cause { OnErr result (sends call ≡ true) }
        ensures err { OnErr result (self.new ≡ self.old) }
    {
        references_are_held();
        let removes = call.removes();
        let reply = self.core.call(who, call)?;
        let removed = is_removed(removes, reply.exception);
        let media = let_go_if(removed, self.alloc, &mut self.waiting, &mut self.freed);
        Ok(Reply {
            place: reply.place,
            exception: reply.exception,
            promise: reply.promise,
            media,
            coder: reply.coder,
        })
    }

    /// An encode that is not refused, with the reference that the codec holds from now on.
    fn call_with(&mut self, who: Who, call: Call, held: MediaRef) -> Result<Reply<C>, MediaRef>
        requires may { may_call call (state_at self.old.codec).control ≡ true }
        requires held { adds_held (entry.Call who call) ≡ pair_of held ∷ [] }
        ensures replied { let old = self.old.codec in
            IfOk result (λ r. Replied old self.new.codec who call (own_reply r)) }
        ensures none { IfOk result (λ r. (r.media ≡ []) × (r.coder ≡ None)) }
        ensures running { KeepsRunning (state_at self.old.codec) (state_at self.new.codec) }
        ensures waiting { OnOk result (self.new.waiting ≡ self.old.waiting ++ held ∷ []) }
        ensures working { self.new.working ≡ self.old.working }
        ensures back { IfErr result (λ h. h ≡ held) }
        ensures err { OnErr result (self.new ≡ self.old) }
    {
        references_are_held();
        match room_for(&mut self.waiting, &mut self.freed) {
            Err(NoMemory) => Err(held),
            Ok(()) => match self.core.call(who, call) {
                Err(NoMemory) => Err(held),
                Ok(reply) => {
                    self.waiting.push_back_reserved(held);
                    Ok(Reply {
                        place: reply.place,
                        exception: reply.exception,
                        promise: reply.promise,
                        media: Vec::new(self.alloc),
                        coder: reply.coder,
                    })
                }
            },
        }
    }

    /// The front item of the work queue becomes running, with its reference, and its job leaves with the box that the codec
    /// holds; none exactly where `Core::start` gives none.
    pub fn start(&mut self) -> Option<Job<C>>
        ensures none { IfNone result (start_item (state_at self.old.codec).control ≡ None) }
        ensures same { IfNone result (self.new ≡ self.old) }
        ensures some { IfSome result
            (λ job. Makes self.old.codec self.new.codec (entry.Start job.epoch job.number)) }
        ensures job { IfSome result (IsJobOf (state_at self.new.codec)) }
        ensures epoch { IfSome result
            (λ job. job.epoch ≡ (state_at self.old.codec).control.epoch) }
        ensures item { IfSome result
            (λ job. option_map item_parts (start_item (state_at self.old.codec).control)
            ≡ Some (job.number, job.work)) }
        ensures place { IfSome result (λ job. job.place ≡ length self.old.codec.history) }
        ensures coder { IfSome result (λ job. job.coder ≡ self.old.codec.slot) }
        ensures lacks { IfSome result
            (λ job. missing_id job ≡ missing_coder (state_at self.old.codec).given job.work) }
        ensures slot { OnSome result (self.new.codec.slot ≡ None) }
        ensures out { IfSome result
            (λ job. self.new.codec.out
            ≡ went_out (is_some (missing_id job)) job.place job.coder) }
        ensures own { IfSome result (IsOwnJob self.new.codec.out) }
        ensures lets { IfSome result
            (λ job. is_some (missing_id job) ≡ true → GoesBack self.new.codec job.place job.coder) }
        ensures spare { self.new.codec.spare ≡ self.old.codec.spare }
        ensures held { OnSome result (all_of self.new ≡ self.old.waiting) }
        ensures was { OnSome result (self.old.working ≡ None) }
    {
        references_are_held();
        let job = self.core.start()?;
        let wanted = job.held().is_some();
        take_if(wanted, &mut self.waiting, &mut self.working);
        Some(job)
    }

    /// The running item ends at a moment in microseconds, by the end of this codec's own job, and its reference is let go.
    pub fn done(&mut self, d: DoneJob<C>, moment: u64) -> Ended<C>
        requires end { IsEndOf (state_at self.old.codec) d }
        requires own { IsBack self.old.codec.out d.coder }
        ensures made { Makes self.old.codec self.new.codec
            (entry.Done d.epoch d.number moment (outcome_of d.ended)) }
        ensures idle { (state_at self.new.codec).control.running ≡ None }
        ensures place { result.place ≡ length self.old.codec.history }
        ensures slot { self.new.codec.slot
            ≡ kept_box (d.epoch == (state_at self.old.codec).control.epoch) d.coder }
        ensures back { result.coder
            ≡ handed_back (d.epoch == (state_at self.old.codec).control.epoch) d.coder }
        ensures lets { GoesBack self.new.codec result.place result.coder }
        ensures spare { self.new.codec.spare ≡ self.old.codec.spare }
        ensures media { result.media ≡ self.old.working }
        ensures gone { map pair_of (in_order result.media)
            ≡ running_pairs (state_at self.old.codec) }
        ensures working { self.new.working ≡ None }
        ensures waiting { self.new.waiting ≡ self.old.waiting }
    {
        references_are_held();
        let back = self.core.done(d, moment);
        let media = self.working.take();
        Ended {
            place: back.place,
            media,
            coder: back.coder,
        }
    }

    /// The front event task runs; where it closes the codec, what waits is let go. None exactly where no task is queued.
    pub fn turn(&mut self) -> Option<Turned<C>>
        ensures none { IfNone result ((state_at self.old.codec).control.tasks ≡ []) }
        ensures same { IfNone result (self.new ≡ self.old) }
        ensures some { OnSome result (Makes self.old.codec self.new.codec entry.Turn) }
        ensures place { IfSome result (λ t. t.place ≡ length self.old.codec.history) }
        ensures closes { IfSome result
            (λ t. is_some t.removed ≡ closes_now (state_at self.old.codec).control) }
        ensures coder { IfSome result
            (λ t. IfSome t.removed
            (λ r. (r.place ≡ t.place) × (r.coder ≡ stopped_box self.old.codec.slot))) }
        ensures lets { IfSome result
            (λ t. IfSome t.removed (λ r. GoesBack self.new.codec r.place r.coder)) }
        ensures slot { let stays = not (closes_now (state_at self.old.codec).control) in
            self.new.codec.slot ≡ kept_box stays self.old.codec.slot }
        ensures running { KeepsRunning (state_at self.old.codec) (state_at self.new.codec) }
        ensures out { self.new.codec.out ≡ self.old.codec.out }
        ensures spare { self.new.codec.spare ≡ self.old.codec.spare }
        ensures kept { IfSome result (λ t. IfNone t.removed (SameHeld self.old self.new)) }
        ensures gone { IfSome result
            (λ t. IfSome t.removed (λ r. LetsGo self.old self.new r.media)) }
    {
        references_are_held();
        let turned = self.core.turn()?;
        let place = turned.place;
        let removed = with_media(
            self.alloc,
            turned.removed,
            &mut self.waiting,
            &mut self.freed,
        );
        Some(Turned { place, removed })
    }

    /// The codec is reclaimed at a moment in microseconds, and what waits is let go. None exactly where that may not be.
    pub fn reclaim(&mut self, now: u64) -> Option<Removed<C>>
        ensures none { IfNone result (may_reclaim now (state_at self.old.codec).control ≡ false) }
        ensures same { IfNone result (self.new ≡ self.old) }
        ensures made { OnSome result (Makes self.old.codec self.new.codec (entry.Reclaim now)) }
        ensures place { IfSome result (λ r. r.place ≡ length self.old.codec.history) }
        ensures coder { IfSome result (λ r. r.coder ≡ stopped_box self.old.codec.slot) }
        ensures lets { IfSome result (λ r. GoesBack self.new.codec r.place r.coder) }
        ensures slot { OnSome result (self.new.codec.slot ≡ None) }
        ensures running { KeepsRunning (state_at self.old.codec) (state_at self.new.codec) }
        ensures out { self.new.codec.out ≡ self.old.codec.out }
        ensures spare { self.new.codec.spare ≡ self.old.codec.spare }
        ensures gone { IfSome result (λ r. LetsGo self.old self.new r.media) }
    {
        references_are_held();
        let removed = self.core.reclaim(now)?;
        let media = let_go(self.alloc, &mut self.waiting, &mut self.freed);
        Some(Removed {
            place: removed.place,
            media,
            coder: removed.coder,
        })
    }
}
