// The boxes that jobs get, and that go back.
ghost use Rattle.std.specs.Prelude.{◌≡◌, ◌+◌, IfSome, is_some, true, Some, None};
ghost use Rattle.codec_core.specs.declared.out.Out.{Out};
ghost use Rattle.codec_core.specs.Codec.{IsBack};
ghost use Rattle.codec_core.specs.Job.{IsJobOf, IsEndOf, missing_id, stopped_box};
ghost use Rattle.codec_core.specs.Owning.{IsOwnJob};
ghost use Rattle.codec_model.specs.Replay.{State};
ghost use Rattle.codec_drain.specs.Drains.{IsOwnBox};

use codec_core::{DoneJob, Job};
use codec_drive::run;
use coder_api::{Coder, SlotBox};
use slot_registry::{AcquireFault, Slots};
use std::alloc::Global;
use wc_base::By;
use wc_config::CoderId;

/// A box goes back, if there is one, by the entry at a place of the codec with this number.
pub(crate) fn give<C: Coder>(slots: &mut Slots<C>, codec: u32, place: u64, slot: Option<SlotBox<C>>)
    requires { IfSome slot (IsOwnBox codec place slots.old) }
    ensures { slot ≡ None → slots.new ≡ slots.old }
{
    match slot {
        Some(slot) => slots.give_back(By::Codec { codec, place }, slot),
        None => {}
    }
}

/// A job without the box that it came with.
fn emptied<C: Coder>(mut job: Job<C>) -> (Job<C>, Option<SlotBox<C>>)
    requires { is_some (missing_id job) ≡ true }
    ensures stays { (s : State) → IsJobOf s job → IsJobOf s result.0 }
    ensures own { (out : Out) → IsOwnJob out job → IsOwnJob out result.0 }
    ensures place { result.0.place ≡ job.place }
    ensures epoch { result.0.epoch ≡ job.epoch }
    ensures none { result.0.coder ≡ None }
    ensures lacks { missing_id result.0 ≡ missing_id job }
    ensures slot { result.1 ≡ stopped_box job.coder }
{
    let slot = job.take_box();
    (job, slot)
}

/// The end of a job that lacks a box. It gets the free box of least number and does its work. It ends without one where none
/// is free, or where memory is wanted.
fn end_with<C: Coder>(
    alloc: Global,
    mut job: Job<C>,
    slots: &mut Slots<C>,
    codec: u32,
    id: CoderId,
) -> DoneJob<C>
    requires lacks { missing_id job ≡ Some id }
    requires none { job.coder ≡ None }
    ensures end { (s : State) → IsJobOf s job → IsEndOf s result }
    ensures own { (out : Out) → IsOwnJob out job → IsBack out result.coder }
    ensures epoch { result.epoch ≡ job.epoch }
    ensures coder { IfSome result.coder (IsOwnBox codec (job.place + 1) slots.new) }
{
    let place = job.place();
    match slots.acquire(By::Codec { codec, place }, id) {
        Ok(slot) => {
            job.put_box(slot);
            run(alloc, job)
        }
        Err(
            AcquireFault::NoSlot {
                entry,
                out: _,
                made: _,
            },
        ) => job.no_slot(entry),
        Err(AcquireFault::NoMemory) => job.no_memory(),
    }
}

/// The end of a job: it does its work, with a box of the id that it needs.
pub(crate) fn end_of<C: Coder>(
    alloc: Global,
    job: Job<C>,
    slots: &mut Slots<C>,
    codec: u32,
) -> DoneJob<C>
    requires { IfSome job.coder (IsOwnBox codec job.place slots.old) }
    ensures end { (s : State) → IsJobOf s job → IsEndOf s result }
    ensures own { (out : Out) → IsOwnJob out job → IsBack out result.coder }
    ensures epoch { result.epoch ≡ job.epoch }
    ensures coder { IfSome result.coder (IsOwnBox codec (job.place + 1) slots.new) }
{
    match job.lacks() {
        None => run(alloc, job),
        Some(id) => {
            let (job, slot) = emptied(job);
            let place = job.place();
            give(slots, codec, place, slot);
            end_with(alloc, job, slots, codec, id)
        }
    }
}
