// The boxes that codecs take from the registry and give back, and what they let go.
ghost use Rattle.std.specs.Prelude.{◌≡◌, IfOk, OnOk, option_map, is_some, true, Some, None, length};
ghost use Rattle.codec_accounts.specs.Codec.{IsGivable, after_give, after_ask, slots_after, holding_after};
ghost use Rattle.codec_core.specs.declared.out.Out.{Out};
ghost use Rattle.codec_core.specs.Codec.{IsBy};
ghost use Rattle.codec_core.specs.Job.{IsJobOf, missing_id};
ghost use Rattle.codec_core.specs.Owning.{IsOwnJob};
ghost use Rattle.codec_model.specs.Replay.{State};
ghost use Rattle.media_variables.specs.Held.{AreApart};
ghost use Rattle.slot_registry.specs.Slots.{acquired};
ghost use Rattle.wc_replay.specs.Desk.{LacksBox, box_in, box_out, pairs_in, media_without, holding_with, renewal};

use codec_core::Job;
use codec_media::Removed;
use coder_api::{Coder, SlotBox};
use media_variables::CallerMedia;
use slot_registry::{AcquireFault, Slots};
use wc_base::{By, NoMemory};
use wc_config::CoderId;

/// A box goes back, if there is one.
pub(crate) fn give<C: Coder>(slots: &mut Slots<C>, by: By, slot: Option<SlotBox<C>>)
    requires givable { IsGivable slots.old.history by (option_map box_out slot) }
    ensures { slots.new ≡ after_give by (option_map box_out slot) slots.old }
{
    match slot {
        Some(slot) => slots.give_back(by, slot),
        None => {}
    }
}

/// What a removal let go, if there was one: the box goes back, and the references end.
pub(crate) fn let_go<C: Coder>(
    slots: &mut Slots<C>,
    media: &mut CallerMedia,
    by: By,
    removed: Option<Removed<C>>,
)
    requires givable { IsGivable slots.old.history by (option_map box_out (box_in removed)) }
    requires lent { AreApart media.old.pool media.old.variables (pairs_in removed) }
    ensures slots { slots.new ≡ after_give by (option_map box_out (box_in removed)) slots.old }
    ensures media { media.new ≡ media_without by (pairs_in removed) media.old }
{
    match removed {
        Some(removed) => {
            media.end_all(by, removed.media);
            give(slots, by, removed.coder);
        }
        None => {}
    }
}

/// A job without the box that it came with.
fn emptied<C: Coder>(mut job: Job<C>) -> (Job<C>, Option<SlotBox<C>>)
    requires { is_some (missing_id job) ≡ true }
    ensures stays { (s : State) → IsJobOf s job → IsJobOf s result.0 }
    ensures own { (out : Out) → IsOwnJob out job → IsOwnJob out result.0 }
    ensures place { result.0.place ≡ job.place }
    ensures none { result.0.coder ≡ None }
    ensures lacks { missing_id result.0 ≡ missing_id job }
    ensures slot { option_map box_out result.1 ≡ option_map box_out job.coder }
{
    let slot = job.take_box();
    (job, slot)
}

/// The free box of least number goes to a job that lacks one, or an entry of the registry refuses it.
fn lend<C: Coder>(
    mut job: Job<C>,
    slots: &mut Slots<C>,
    by: By,
    id: CoderId,
) -> (Job<C>, Result<Option<u64>, NoMemory>)
    requires lacks { missing_id job ≡ Some id }
    requires none { job.coder ≡ None }
    requires start { IsBy by (Some job.place) }
    ensures own { (out : Out) → IsOwnJob out job → IsOwnJob out result.0 }
    ensures empty { LacksBox result.0 None }
    ensures stays { (s : State) → IsJobOf s job → IsJobOf s result.0 }
    ensures refused { IfOk result.1 (LacksBox result.0) }
    ensures slots { OnOk result.1 (slots.new ≡ acquired by id slots.old) }
    ensures holding { IfOk result.1
        (λ refusal. holding_with result.0.coder refusal ≡ after_ask by id slots.old) }
{
    match slots.acquire(by, id) {
        Ok(slot) => {
            job.put_box(slot);
            (job, Ok(None))
        }
        Err(
            AcquireFault::NoSlot {
                entry,
                out: _,
                made: _,
            },
        ) => (job, Ok(Some(entry))),
        Err(AcquireFault::NoMemory) => (job, Err(NoMemory)),
    }
}

/// A job that lacks a box gives back the one that it came with, and asks for one of its id. The answer is the entry of the
/// registry that refused it, if none was free.
pub(crate) fn fill<C: Coder>(
    job: Job<C>,
    slots: &mut Slots<C>,
    by: By,
) -> (Job<C>, Result<Option<u64>, NoMemory>)
    requires givable { IsGivable slots.old.history by (option_map box_out job.coder) }
    requires start { IsBy by (Some job.place) }
    ensures own { (out : Out) → IsOwnJob out job → IsOwnJob out result.0 }
    ensures empty { LacksBox result.0 None }
    ensures stays { (s : State) → IsJobOf s job → IsJobOf s result.0 }
    ensures refused { IfOk result.1 (LacksBox result.0) }
    ensures slots { OnOk result.1
        (slots.new
        ≡ slots_after by (renewal (missing_id job)) (option_map box_out job.coder) slots.old) }
    ensures holding { IfOk result.1
        (λ refusal. holding_with result.0.coder refusal
        ≡ holding_after by (renewal (missing_id job)) (holding_with job.coder None) slots.old) }
{
    match job.lacks() {
        None => (job, Ok(None)),
        Some(id) => {
            let (job, slot) = emptied(job);
            give(slots, by, slot);
            lend(job, slots, by, id)
        }
    }
}
