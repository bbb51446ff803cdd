// Work items of a codec, which may leave it for another thread.
ghost use Rattle.std.specs.Prelude.{◌≡◌, None, is_some, true};
ghost use Rattle.codec_model.specs.Replay.{State};
ghost use Rattle.codec_live.specs.Job.{IsJobOf, IsEndOf, missing_id};
ghost use Rattle.engine.specs.Steps.{IsEndOfJob, Performs};

use crate::coder::AudioCoder;
use codec_live::{DoneJob, Job};
use coder_api::{Coder, SlotBox};
use std::alloc::Global;
use wc_base::By;

/// A work item that left its codec, and its end; neither where none could begin.
#[derive(Drop)]
pub struct WorkItem {
    pub job: Option<Job<AudioCoder>>,
    pub done: Option<DoneJob<AudioCoder>>,
    pub alloc: Global,
}

impl WorkItem {
    /// Does the job that is there, on any thread: no codec is at hand.
    pub fn perform(&mut self)
        ensures { Performs self.old self.new }
    {
        if let Some(job) = self.job.take() {
            self.done = Some(end_of(self.alloc, job));
        }
    }

    /// Gives back all that it has.
    pub fn end(self) {}
}

/// Gives a job this coder, where it lacks one of its id.
fn give(mut job: Job<AudioCoder>, coder: AudioCoder) -> Job<AudioCoder>
    requires { job.coder ≡ None }
    ensures stays { (s : State) → IsJobOf s job → IsJobOf s result }
    ensures empty { is_some (missing_id result) ≡ true → result.coder ≡ None }
    ensures epoch { result.epoch ≡ job.epoch }
    ensures number { result.number ≡ job.number }
{
    let by = By::Codec {
        codec: 0,
        place: job.place(),
    };
    let coder = SlotBox::new(coder, 0, by);
    if job.lacks() != Some(coder.id()) {
        return job;
    }
    job.put_box(coder);
    job
}

/// Makes room for the box that a job lacks.
fn without_box(mut job: Job<AudioCoder>) -> Job<AudioCoder>
    requires { is_some (missing_id job) ≡ true }
    ensures stays { (s : State) → IsJobOf s job → IsJobOf s result }
    ensures empty { result.coder ≡ None }
    ensures epoch { result.epoch ≡ job.epoch }
    ensures number { result.number ≡ job.number }
{
    let _ = job.take_box();
    job
}

/// Gives a job the box that it lacks.
fn with_box(alloc: Global, job: Job<AudioCoder>) -> Job<AudioCoder>
    ensures stays { (s : State) → IsJobOf s job → IsJobOf s result }
    ensures empty { is_some (missing_id result) ≡ true → result.coder ≡ None }
    ensures epoch { result.epoch ≡ job.epoch }
    ensures number { result.number ≡ job.number }
{
    let Some(id) = job.lacks() else {
        return job;
    };
    let job = without_box(job);
    match AudioCoder::of(alloc, id.role, id.codec) {
        Some(coder) => give(job, coder),
        None => job,
    }
}

/// Does a job, with a coder of its own where it lacks one.
pub(crate) fn end_of(alloc: Global, job: Job<AudioCoder>) -> DoneJob<AudioCoder>
    ensures { IsEndOfJob job result }
{
    let job = with_box(alloc, job);
    if job.lacks().is_some() {
        job.no_memory()
    } else {
        job.perform(alloc)
    }
}
