// Does jobs.
ghost use Rattle.std.specs.Prelude.{◌≡◌, None};
ghost use Rattle.codec_core.specs.declared.out.Out.{Out};
ghost use Rattle.codec_core.specs.Codec.{IsBack};
ghost use Rattle.codec_core.specs.Owning.{IsOwnJob};
ghost use Rattle.codec_core.specs.Job.{IsJob, IsJobOf, IsEndOf, EndsBy, missing_id, stopped_box};
ghost use Rattle.codec_model.specs.Control.{kind_of};
ghost use Rattle.codec_model.specs.Replay.{State, Given, answer_to};

use codec_core::{DoneJob, Job};
use coder_api::Coder;
use std::alloc::Global;

/// Does a job's work, apart from its codec: no codec is at hand, and nothing is waited for. Its end is what the codec's
/// definition gives for this input after all that was given in the epoch before it, or want of memory. The job must not
/// lack a box.
pub fn run<C: Coder>(alloc: Global, job: Job<C>) -> DoneJob<C>
    requires { missing_id job ≡ None }
    ensures end { (s : State) → IsJobOf s job → IsEndOf s result }
    ensures answer { (g : Given) → IsJob g job
        → EndsBy (answer_to (kind_of job.work) g) result.ended }
    ensures epoch { result.epoch ≡ job.epoch }
    ensures number { result.number ≡ job.number }
    ensures kind { result.kind ≡ kind_of job.work }
    ensures same { stopped_box result.coder ≡ stopped_box job.coder }
    ensures own { (out : Out) → IsOwnJob out job → IsBack out result.coder }
{
    job.perform(alloc)
}
