// The boxes of jobs, which come from a lender and go back.
ghost use Rattle.std.specs.Prelude.{◌≡◌, IfOk, OnOk, IfSome, None, Some, is_some, true, false};
ghost use Rattle.codec_core.specs.declared.out.Out.{Out};
ghost use Rattle.codec_core.specs.Job.{IsJobOf, missing_id};
ghost use Rattle.codec_core.specs.Owning.{IsOwnJob};
ghost use Rattle.codec_model.specs.Replay.{State};
ghost use Rattle.codec_judge.specs.Judge.{IsEmptied, IsFilled, IsSameJob};
ghost use Rattle.codec_judge.specs.Lender.{id_in};

use crate::lender::Lender;
use codec_core::Job;
use coder_api::Coder;
use wc_base::{By, NoMemory};

/// A job without a box that does not serve it; that goes back.
pub(crate) fn emptied<C: Coder>(mut job: Job<C>, lender: &mut Lender<C>) -> Result<Job<C>, NoMemory>
    requires out { lender.old.out ≡ id_in job.coder }
    ensures empty { IfOk result IsEmptied }
    ensures same { IfOk result (IsSameJob job) }
    ensures lacks { IfOk result (λ j. missing_id j ≡ missing_id job) }
    ensures stays { IfOk result (λ j. (s : State) → IsJobOf s job → IsJobOf s j) }
    ensures own { IfOk result (λ j. (out : Out) → IsOwnJob out job → IsOwnJob out j) }
    ensures out { IfOk result (λ j. lender.new.out ≡ id_in j.coder) }
    ensures home { OnOk result (lender.new.home ≡ lender.old.home) }
{
    if job.lacks().is_some() {
        let coder = job.take_box();
        lender.settle(coder)?;
    }
    Ok(job)
}

/// A job with the box that it needs, and whether there is a coder for it. A job that lacks none keeps its own.
pub(crate) fn filled<C: Coder>(
    job: Job<C>,
    lender: &mut Lender<C>,
) -> Result<(Job<C>, bool), NoMemory>
    requires out { lender.old.out ≡ id_in job.coder }
    ensures filled { IfOk result
        (λ r. IsFilled lender.old.home (missing_id job) r.1 (missing_id r.0)) }
    ensures same { IfOk result (λ r. IsSameJob job r.0) }
    ensures stays { IfOk result (λ r. (s : State) → IsJobOf s job → IsJobOf s r.0) }
    ensures own { IfOk result (λ r. (out : Out) → IsOwnJob out job → IsOwnJob out r.0) }
    ensures out { IfOk result (λ r. lender.new.out ≡ id_in r.0.coder) }
    ensures home { OnOk result (lender.new.home ≡ lender.old.home) }
{
    match job.lacks() {
        None => Ok((job, true)),
        Some(id) => {
            let mut job = emptied(job, lender)?;
            let by = By::Codec {
                codec: 0,
                place: job.place(),
            };
            match lender.lend(id, by) {
                None => Ok((job, false)),
                Some(coder) => {
                    job.put_box(coder);
                    Ok((job, true))
                }
            }
        }
    }
}
