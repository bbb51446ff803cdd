// The work of one item, which leaves the codec and comes back done.
ghost use Rattle.std.specs.Prelude.{◌≡◌, None, Some, is_some, true};
ghost use Rattle.codec_live.specs.Job.{IsJob, IsJobOf, IsEndOf, EndsBy, ReadyAfter, missing_id, stopped_box, with_box, done_with, wants};
ghost use Rattle.codec_model.specs.Control.{kind_of, held_of};
ghost use Rattle.codec_model.specs.Replay.{State, Given, answer_to};
ghost use Rattle.codec_queues.specs.Labels.{label_of};
ghost use Rattle.codec_model.specs.declared.entry.Ended.TheVariants as ended;

use crate::labels::with_label;
use crate::work::{missing_id, work_end};
use codec_model::{Ended, Pair, Work, WorkKind};
use coder_api::{Coder, SlotBox};
use std::alloc::Global;
use std::marker::Model;
use wc_config::{AudioDecoderConfig, CoderId};

/// An item that is at work, with the box that its codec held.
#[derive(Drop)]
pub struct Job<C: Coder> {
    pub(crate) epoch: u64,
    pub(crate) number: u64,
    pub(crate) place: u64,
    pub(crate) work: Work,
    pub(crate) coder: Option<SlotBox<C>>,
}

impl<C: Coder> Model for Job<C> {
    ghost use Rattle.codec_live.specs.Job.{JobValue, IsReady};

    ghost Value = { JobValue };

    ghost view = { λ j. record { epoch = j.epoch; number = j.number; place = j.place; work = j.work; coder = j.coder } };

    ghost invariant = { λ j. IsReady j.work j.coder };
}

/// An item that ended, with the box that it used.
#[derive(Drop)]
pub struct DoneJob<C: Coder> {
    pub(crate) epoch: u64,
    pub(crate) number: u64,
    pub(crate) kind: WorkKind,
    pub(crate) ended: Ended,
    // A copy of the config that its outputs carry.
    pub(crate) label: Option<AudioDecoderConfig>,
    pub(crate) coder: Option<SlotBox<C>>,
}

impl<C: Coder> Model for DoneJob<C> {
    ghost use Rattle.codec_live.specs.Job.{DoneValue, IsDone};

    ghost Value = { DoneValue };

    ghost view = { λ d. record { epoch = d.epoch; number = d.number; kind = d.kind; ended = d.ended; coder = d.coder } };

    ghost invariant = { λ d. IsDone d.ended d.label d.coder };
}

impl<C: Coder> Job<C> {
    /// The item's epoch, and its number there.
    pub fn number(&self) -> (u64, u64)
        ensures { result ≡ (self.now.epoch, self.now.number) }
    {
        (self.epoch, self.number)
    }

    /// The place of its Start in the codec's history.
    pub fn place(&self) -> u64
        ensures { result ≡ self.now.place }
    {
        self.place
    }

    /// The reference that its item holds, if it holds one.
    pub fn held(&self) -> Option<Pair>
        ensures { result ≡ held_of self.now.work }
    {
        self.work.held()
    }

    /// The id of the coder that the job has no box of: some exactly for the configure job of a supported config whose
    /// box, if any, is of another id.
    pub fn lacks(&self) -> Option<CoderId>
        ensures { result ≡ missing_id self.now }
    {
        missing_id(&self.work, &self.coder)
    }

    /// The box of another id that the job came with, stopped.
    pub fn take_box(&mut self) -> Option<SlotBox<C>>
        requires { is_some (missing_id self.old) ≡ true }
        ensures taken { result ≡ stopped_box self.old.coder }
        ensures left { self.new ≡ with_box None self.old }
        ensures lacks { missing_id self.new ≡ missing_id self.old }
        ensures stays { (s : State) → IsJobOf s self.old → IsJobOf s self.new }
    {
        let mut coder = self.coder.take()?;
        coder.stop();
        Some(coder)
    }

    /// Gives the job the box that it lacks.
    pub fn put_box(&mut self, coder: SlotBox<C>)
        requires id { missing_id self.old ≡ Some coder.id }
        requires none { self.old.coder ≡ None }
        ensures put { self.new ≡ with_box (Some coder) self.old }
        ensures serves { missing_id self.new ≡ None }
        ensures stays { (s : State) → IsJobOf s self.old → IsJobOf s self.new }
    {
        self.coder = Some(coder);
    }

    /// The job's end where no coder was free, by this entry of the registry. The job lacks a box, and has none.
    pub fn no_slot(self, entry: u64) -> DoneJob<C>
        requires lacks { is_some (missing_id self) ≡ true }
        requires none { self.coder ≡ None }
        ensures done { result ≡ done_with (ended.NoSlot entry) self }
        ensures end { (s : State) → IsJobOf s self → IsEndOf s result }
    {
        self.ended(Ended::NoSlot(entry))
    }

    /// The job's end where memory was wanted. A job that lacks a box has none.
    pub fn no_memory(self) -> DoneJob<C>
        requires none { is_some (missing_id self) ≡ true → self.coder ≡ None }
        ensures done { result ≡ done_with ended.NoMemory self }
        ensures end { (s : State) → IsJobOf s self → IsEndOf s result }
    {
        self.ended(Ended::NoMemory)
    }

    fn ended(self, ended: Ended) -> DoneJob<C>
        requires label { label_of ended ≡ None }
        requires ran { ReadyAfter ended self.coder }
        ensures { result ≡ done_with ended self }
    {
        let kind = self.work.kind();
        DoneJob {
            epoch: self.epoch,
            number: self.number,
            kind,
            ended,
            label: None,
            coder: self.coder,
        }
    }

    /// Does the job's work. Its end is what the codec's definition gives for this input after all that was given in the
    /// epoch before it, or want of memory.
    pub fn perform(self, alloc: Global) -> DoneJob<C>
        requires { missing_id self ≡ None }
        ensures end { (s : State) → IsJobOf s self → IsEndOf s result }
        ensures answer { (g : Given) → IsJob g self
            → EndsBy (answer_to (kind_of self.work) g) result.ended }
        ensures epoch { result.epoch ≡ self.epoch }
        ensures number { result.number ≡ self.number }
        ensures kind { result.kind ≡ kind_of self.work }
        ensures same { stopped_box result.coder ≡ stopped_box self.coder }
    {
        let Job {
            epoch,
            number,
            place: _,
            work,
            mut coder,
        } = self;
        let kind = work.kind();
        let end = work_end(alloc, &work, &mut coder);
        let (ended, label) = with_label(end);
        DoneJob {
            epoch,
            number,
            kind,
            ended,
            label,
            coder,
        }
    }
}

impl<C: Coder> DoneJob<C> {
    /// The item's epoch, and its number there.
    pub fn number(&self) -> (u64, u64)
        ensures { result ≡ (self.now.epoch, self.now.number) }
    {
        (self.epoch, self.number)
    }

    /// Whether the item ended because memory was wanted.
    pub fn wants_memory(&self) -> bool
        ensures { result ≡ wants self.now.ended }
    {
        matches!(self.ended, Ended::NoMemory)
    }
}
