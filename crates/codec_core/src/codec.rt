// One codec, which keeps its history.
ghost use Rattle.std.specs.Prelude.{◌≡◌, ◌==◌, max, ◌≤◌, ◌+◌, ◌^◌, IfOk, IfNone, IfSome, OnSome, OnOk, OnErr, None, Some, [], length, map, option_map, not, is_some, slice_get, false, true};
ghost use Rattle.codec_model.specs.declared.entry.Entry.TheVariants as entry;
ghost use Rattle.codec_model.specs.declared.entry.Call.TheVariants as call;
ghost use Rattle.codec_model.specs.Control.{start_item, may_take, may_reclaim};
ghost use Rattle.codec_model.specs.Replay.{may_call, sends, takes, encode_error, missing_coder, IsLegal};
ghost use Rattle.codec_model.specs.Facts.{IsNeverStuck};
ghost use Rattle.codec_model.specs.Shown.{shown, shown_of, outputs_of, each_shown, ends_in, promise_state};
ghost use Rattle.segmented_list.specs.Segments.{AreCut, joined};
ghost use Rattle.codec_core.specs.declared.out.Out.TheVariants.{With};
ghost use Rattle.codec_core.specs.Job.{IsJobOf, IsEndOf, outcome_of, missing_id, stopped_box};
ghost use Rattle.codec_core.specs.Owning.{IsOwnJob, GoesBack};
ghost use Rattle.codec_core.specs.Codec.{state_at, Makes, IsBack, KeepsRunning, Replied, kept_box, handed_back, removed_if, closes_now, progress_of, item_parts, went_out};

use crate::job::{DoneJob, Job};
use crate::out::{Out, went_out};
use crate::parts::{box_stays, hand_back, more_places, removed_if};
use crate::reply::{Back, Removed, Reply, Turned};
use crate::trace::Trace;
use crate::work::{missing_id, outcome_of_end};
use codec_model::{Call, CodecState, Entry, Kind, Opening, PromiseState, Showing, never_stuck};
use codec_queues::Machine;
use coder_api::{Coder, SlotBox, Unit};
use segmented_list::{Segment, SegmentedList};
use std::alloc::Global;
use std::marker::Model;
use std::mem;
use wc_base::{DomError, Ground, NoMemory, Who};

/// One codec: its state machine, the history of its entries with what each of them showed, and the box that it holds while
/// no item is at work.
#[derive(Drop)]
pub struct Core<C: Coder> {
    slot: Option<SlotBox<C>>,
    out: Out,
    machine: Machine,
    trace: Trace,
    spare: usize,
}

impl<C: Coder> Model for Core<C> {
    ghost use Rattle.codec_core.specs.Codec.{Codec, IsCore};

    ghost Value = { Codec };

    ghost view = { λ c. record { opening = c.machine.opening; history = c.trace.entries; spare = c.spare; slot = c.slot; out = c.out } };

    ghost invariant = { λ c. IsCore c.trace c.slot c.out c.machine c.spare };
}

impl<C: Coder> Core<C> {
    /// A codec with an empty history, and places for so many entries of callers.
    pub fn open(alloc: Global, kind: Kind, saturation: u32, calls: u64) -> Result<Core<C>, NoMemory>
        requires low { 1 ≤ saturation }
        requires high { saturation ≤ 64 }
        ensures opening { IfOk result
            (λ c. c.opening ≡ record { kind = kind; saturation = saturation }) }
        ensures history { IfOk result (λ c. c.history ≡ []) }
        ensures slot { IfOk result (λ c. c.slot ≡ None) }
        ensures spare { IfOk result (λ c. calls ≤ c.spare) }
    {
        let machine = Machine::open(alloc, Opening { kind, saturation })?;
        let spare = calls as usize;
        let places = more_places(0, spare)?;
        let trace = Trace::open(alloc, places)?;
        Ok(Core {
            slot: None,
            out: Out::With(None),
            machine,
            trace,
            spare,
        })
    }

    /// The kind and the saturation that it was opened with.
    pub fn opening(&self) -> Opening
        ensures { result ≡ self.now.opening }
    {
        self.machine.opening()
    }

    /// So many more calls that send no message have a place: resets, closes, takes and refused encodes.
    pub fn spare(&self) -> u64
        ensures { result ≡ self.now.spare }
    {
        self.spare as u64
    }

    /// Makes places for at least so many more calls that send no message. After want of memory nothing has changed.
    pub fn reserve(&mut self, calls: u64) -> Result<(), NoMemory>
        ensures ok { OnOk result (self.new ≡ record self.old { spare = max calls self.old.spare }) }
        ensures err { OnErr result (self.new ≡ self.old) }
    {
        let spare = self.spare.max(calls as usize);
        let places = more_places(self.machine.room(), spare)?;
        self.trace.reserve(places)?;
        self.spare = spare;
        Ok(())
    }

    /// All entries so far, in segments. The state after them is never stuck.
    pub fn segments(&self) -> &[Segment<Entry>]
        ensures entries { joined result.now ≡ self.now.history }
        ensures cut { AreCut 0 result.now }
        ensures legal { IsLegal self.now.opening self.now.history }
        ensures place { (state_at self.now).control.place ≡ length self.now.history }
        ensures facts { IsNeverStuck (state_at self.now).control }
    {
        never_stuck();
        self.trace.entries()
    }

    /// The entry at a place; none from the end of the history on.
    pub fn entry(&self, place: u64) -> Option<&Entry>
        ensures { option_map (λ e. e.now) result ≡ slice_get self.now.history place }
    {
        self.trace.entry(place as usize)
    }

    /// What each of the entries showed.
    pub fn shown(&self) -> &[Segment<Showing>]
        ensures shows { map shown_of (joined result.now)
            ≡ each_shown self.now.opening self.now.history }
        ensures cut { AreCut 0 result.now }
    {
        self.trace.shown()
    }

    /// The history, what each of its entries showed, and the box that the codec holds, with no memory.
    pub fn into_parts(
        self,
    ) -> (
        SegmentedList<Entry>,
        SegmentedList<Showing>,
        Option<SlotBox<C>>,
    )
        ensures entries { result.0 ≡ self.history }
        ensures legal { IsLegal self.opening self.history }
        ensures shows { map shown_of result.1 ≡ each_shown self.opening self.history }
        ensures slot { result.2 ≡ self.slot }
    {
        let (entries, showings) = self.trace.into_parts();
        (entries, showings, self.slot)
    }

    /// What became of the promise of a flush, by its entry's place.
    pub fn end_of(&self, promise: u64) -> PromiseState
        ensures { result
            ≡ promise_state (ends_in (shown self.now.opening self.now.history)) promise }
    {
        self.trace.end_of(promise)
    }

    /// The number of entries, the state, and the number of coded messages in the queue.
    pub fn look(&self) -> (u64, CodecState, u64)
        ensures entries { result.0 ≡ length self.now.history }
        ensures state { result.1 ≡ (state_at self.now).control.phase }
        ensures size { result.2 ≡ (state_at self.now).control.size }
    {
        (
            self.machine.place(),
            self.machine.phase(),
            self.machine.size(),
        )
    }

    /// The moment in microseconds when the last item of this epoch ended, of a configured codec.
    pub fn progress(&self) -> Option<u64>
        ensures { result ≡ progress_of (state_at self.now).control }
    {
        match self.machine.phase() {
            CodecState::Configured => self.machine.progress(),
            CodecState::Unconfigured => None,
            CodecState::Closed => None,
        }
    }

    /// Where the codec is at work.
    pub fn ground(&self) -> Ground
        ensures { result ≡ (state_at self.now).control.own_ground }
    {
        self.machine.ground()
    }

    /// What the codec is.
    pub fn kind(&self) -> Kind
        ensures { result ≡ self.now.opening.kind }
    {
        self.machine.opening().kind
    }

    /// What decides over a reclaim: the progress, where the codec is at work, and what it is.
    pub fn holding(&self) -> (Option<u64>, Ground, Kind)
        ensures progress { result.0 ≡ progress_of (state_at self.now).control }
        ensures at { result.1 ≡ (state_at self.now).control.own_ground }
        ensures kind { result.2 ≡ self.now.opening.kind }
    {
        (self.progress(), self.ground(), self.kind())
    }

    /// The error with which an encode would be refused now: of detached data first.
    pub fn encode_refusal(&self, detached: bool) -> Option<DomError>
        ensures { result ≡ encode_error detached (state_at self.now).control }
    {
        self.machine.encode_error(detached)
    }

    /// The first output that was shown and not taken yet, which is the one that the next take gets; its number is `taken`.
    /// None exactly where there is none.
    pub fn next_output(&self) -> Option<&Unit>
        ensures may { let control = (state_at self.now).control in
            is_some result ≡ may_take control.taken control }
        ensures unit { IfSome result
            (λ u. slice_get (outputs_of (shown self.now.opening self.now.history))
            (state_at self.now).control.taken
            ≡ Some u.now) }
    {
        self.trace.next_output()
    }

    /// How many outputs were taken, which is the number of the next one.
    pub fn taken(&self) -> u64
        ensures { result ≡ (state_at self.now).control.taken }
    {
        self.machine.taken()
    }

    /// A call of a caller (W3C WebCodecs: `configure`, `decode`, `encode`, `flush`, `reset`, `close`; to take an output, and to
    /// tell the codec where it is at work, are our choice). It has an entry, refused or not. A flush is never refused with an exception: its promise is rejected. An
    /// encode says what becomes of its data, as `encode_refusal` tells; a take has the number of the next output. A call
    /// that sends a message takes all places that its later steps need; only such a call may want memory, and then nothing
    /// has changed. Any other takes one of the places that are kept.
    pub fn call(&mut self, who: Who, call: Call) -> Result<Reply<C>, NoMemory>
        requires may { may_call call (state_at self.old).control ≡ true }
        requires spare { sends call ≡ false → 1 ≤ self.old.spare }
        ensures replied { IfOk result (Replied self.old self.new who call) }
        ensures lets { IfOk result (λ r. GoesBack self.new r.place r.coder) }
        ensures running { KeepsRunning (state_at self.old) (state_at self.new) }
        ensures cause { OnErr result (sends call ≡ true) }
        ensures err { OnErr result (self.new ≡ self.old) }
    {
        if call.sends() {
            self.send(who, call)
        } else {
            match call {
                Call::Take(unit) => Ok(self.take(who, unit)),
                call => Ok(self.make(who, call)),
            }
        }
    }

    /// Makes the entry of a call that sends a message, with all places that its later steps take.
    fn send(&mut self, who: Who, call: Call) -> Result<Reply<C>, NoMemory>
        requires may { may_call call (state_at self.old).control ≡ true }
        requires sends { sends call ≡ true }
        ensures replied { IfOk result (Replied self.old self.new who call) }
        ensures none { IfOk result (λ r. r.coder ≡ None) }
        ensures running { KeepsRunning (state_at self.old) (state_at self.new) }
        ensures err { OnErr result (self.new ≡ self.old) }
    {
        never_stuck();
        let promise = call.promise(self.machine.place());
        let places = more_places(self.machine.room(), self.spare)?;
        self.trace.reserve(places)?;
        let answer = self.machine.call(&call)?;
        self.trace.push(Entry::Call { who, call }, answer.showing);
        Ok(Reply {
            place: answer.place,
            exception: answer.exception,
            promise,
            coder: None,
        })
    }

    /// Makes the entry of a call that sends no message and takes no output.
    fn make(&mut self, who: Who, call: Call) -> Reply<C>
        requires may { may_call call (state_at self.old).control ≡ true }
        requires sends { sends call ≡ false }
        requires takes { takes call ≡ false }
        requires spare { 1 ≤ self.old.spare }
        ensures replied { Replied self.old self.new who call result }
        ensures lets { GoesBack self.new result.place result.coder }
        ensures running { KeepsRunning (state_at self.old) (state_at self.new) }
    {
        never_stuck();
        let promise = call.promise(self.machine.place());
        let removes = call.removes();
        let answer = match self.machine.call(&call) {
            Ok(answer) => answer,
            Err(NoMemory) => unreachable!(),
        };
        let stays = box_stays(removes, answer.exception);
        let coder = hand_back(&mut self.slot, stays);
        self.spare -= 1;
        self.trace.push(Entry::Call { who, call }, answer.showing);
        Reply {
            place: answer.place,
            exception: answer.exception,
            promise,
            coder,
        }
    }

    /// Makes the entry of a take.
    fn take(&mut self, who: Who, unit: u64) -> Reply<C>
        requires may { may_take unit (state_at self.old).control ≡ true }
        requires spare { 1 ≤ self.old.spare }
        ensures replied { Replied self.old self.new who (call.Take unit) result }
        ensures none { result.coder ≡ None }
        ensures running { KeepsRunning (state_at self.old) (state_at self.new) }
    {
        let call = Call::Take(unit);
        let answer = match self.machine.call(&call) {
            Ok(answer) => answer,
            Err(NoMemory) => unreachable!(),
        };
        self.trace.pass_output();
        self.spare -= 1;
        self.trace.push(Entry::Call { who, call }, answer.showing);
        Reply {
            place: answer.place,
            exception: None,
            promise: None,
            coder: None,
        }
    }

    /// The front item of the work queue becomes running, and its job leaves with the box that the codec holds. Where the
    /// job lacks a box of another id, that box goes back by this Start. None exactly where an item is running, the codec is halted, or no item is queued; then nothing has changed.
    pub fn start(&mut self) -> Option<Job<C>>
        ensures none { IfNone result (start_item (state_at self.old).control ≡ None) }
        ensures same { IfNone result (self.new ≡ self.old) }
        ensures some { IfSome result
            (λ job. Makes self.old self.new (entry.Start job.epoch job.number)) }
        ensures job { IfSome result (IsJobOf (state_at self.new)) }
        ensures epoch { IfSome result (λ job. job.epoch ≡ (state_at self.old).control.epoch) }
        ensures item { IfSome result
            (λ job. option_map item_parts (start_item (state_at self.old).control)
            ≡ Some (job.number, job.work)) }
        ensures place { IfSome result (λ job. job.place ≡ length self.old.history) }
        ensures coder { IfSome result (λ job. job.coder ≡ self.old.slot) }
        ensures lacks { IfSome result
            (λ job. missing_id job ≡ missing_coder (state_at self.old).given job.work) }
        ensures slot { OnSome result (self.new.slot ≡ None) }
        ensures out { IfSome result
            (λ job. self.new.out ≡ went_out (is_some (missing_id job)) job.place job.coder) }
        ensures own { IfSome result (IsOwnJob self.new.out) }
        ensures lets { IfSome result
            (λ job. is_some (missing_id job) ≡ true → GoesBack self.new job.place job.coder) }
        ensures spare { self.new.spare ≡ self.old.spare }
    {
        let place = self.machine.place();
        let epoch = self.machine.epoch();
        let item = self.machine.start()?;
        let coder = mem::replace(&mut self.slot, None);
        let asks = missing_id(&item.work, &coder).is_some();
        self.out = went_out(asks, place, &coder);
        let number = item.number;
        let entry = Entry::Start {
            epoch,
            item: number,
        };
        self.trace.push(entry, Showing::Nothing);
        let work = item.work;
        Some(Job {
            epoch,
            number,
            place,
            work,
            coder,
        })
    }

    /// The running item ends at a moment in microseconds, by the end of this codec's own job. Its box comes home, or is
    /// handed back where the codec was reset or closed since the item began.
    pub fn done(&mut self, d: DoneJob<C>, moment: u64) -> Back<C>
        requires end { IsEndOf (state_at self.old) d }
        requires own { IsBack self.old.out d.coder }
        ensures made { Makes self.old self.new
            (entry.Done d.epoch d.number moment (outcome_of d.ended)) }
        ensures idle { (state_at self.new).control.running ≡ None }
        ensures place { result.place ≡ length self.old.history }
        ensures slot { self.new.slot
            ≡ kept_box (d.epoch == (state_at self.old).control.epoch) d.coder }
        ensures back { result.coder
            ≡ handed_back (d.epoch == (state_at self.old).control.epoch) d.coder }
        ensures lets { GoesBack self.new result.place result.coder }
        ensures out { self.new.out ≡ With None }
        ensures spare { self.new.spare ≡ self.old.spare }
    {
        let place = self.machine.place();
        let current = d.epoch == self.machine.epoch();
        let outcome = outcome_of_end(&d.ended);
        let DoneJob {
            epoch,
            number: item,
            kind: _,
            ended,
            label,
            mut coder,
        } = d;
        self.machine.done(ended, moment, label);
        let back = hand_back(&mut coder, current);
        self.slot = coder;
        self.out = Out::With(None);
        let entry = Entry::Done {
            epoch,
            item,
            moment,
            outcome,
        };
        self.trace.push(entry, Showing::Nothing);
        Back { place, coder: back }
    }

    /// The front event task runs. None exactly where no task is queued; then nothing has changed.
    pub fn turn(&mut self) -> Option<Turned<C>>
        ensures none { IfNone result ((state_at self.old).control.tasks ≡ []) }
        ensures same { IfNone result (self.new ≡ self.old) }
        ensures some { OnSome result (Makes self.old self.new entry.Turn) }
        ensures place { IfSome result (λ t. t.place ≡ length self.old.history) }
        ensures removed { IfSome result
            (λ t. t.removed
            ≡ removed_if (closes_now (state_at self.old).control) t.place
            (stopped_box self.old.slot)) }
        ensures lets { IfSome result
            (λ t. IfSome t.removed (λ r. GoesBack self.new r.place r.coder)) }
        ensures slot { self.new.slot
            ≡ kept_box (not (closes_now (state_at self.old).control)) self.old.slot }
        ensures running { KeepsRunning (state_at self.old) (state_at self.new) }
        ensures out { self.new.out ≡ self.old.out }
        ensures spare { self.new.spare ≡ self.old.spare }
    {
        never_stuck();
        let answer = self.machine.turn()?;
        let place = answer.place;
        let closes = answer.showing.closes();
        let coder = hand_back(&mut self.slot, !closes);
        let removed = removed_if(closes, place, coder);
        self.trace.push(Entry::Turn, answer.showing);
        Some(Turned { place, removed })
    }

    /// The codec is reclaimed at a moment in microseconds: closed with `QuotaExceededError`. None exactly where that may
    /// not be: it is not configured, no item of this epoch ended, or the last did less than ten seconds before and it is no
    /// decoder in the background; then nothing has changed.
    pub fn reclaim(&mut self, now: u64) -> Option<Removed<C>>
        ensures none { IfNone result (may_reclaim now (state_at self.old).control ≡ false) }
        ensures same { IfNone result (self.new ≡ self.old) }
        ensures made { OnSome result (Makes self.old self.new (entry.Reclaim now)) }
        ensures removed { IfSome result
            (λ r. r
            ≡ record { place = length self.old.history; coder = stopped_box self.old.slot }) }
        ensures lets { IfSome result (λ r. GoesBack self.new r.place r.coder) }
        ensures slot { OnSome result (self.new.slot ≡ None) }
        ensures running { KeepsRunning (state_at self.old) (state_at self.new) }
        ensures out { self.new.out ≡ self.old.out }
        ensures spare { self.new.spare ≡ self.old.spare }
    {
        never_stuck();
        let answer = self.machine.reclaim(now)?;
        let coder = hand_back(&mut self.slot, false);
        self.trace
            .push(Entry::Reclaim { moment: now }, answer.showing);
        let place = answer.place;
        Some(Removed { place, coder })
    }
}
