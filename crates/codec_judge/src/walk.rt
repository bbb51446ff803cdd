// A codec's history, made again up to its first entry that is not lawful.
ghost use Rattle.std.specs.Prelude.{ℕ, ◌≡◌, ◌≤◌, [], IfOk, OnOk, None, length, map, take};
ghost use Rattle.codec_model.specs.Shown.{each_shown, shown_of};
ghost use Rattle.codec_judge.specs.Judge.{HasWalked, IsJudged, ShowsFront};
ghost use Rattle.codec_judge.specs.Lender.{id_in};
ghost use Rattle.codec_judge.specs.Lawful.{lawful_shown};

use crate::boxes::emptied;
use crate::judge::{Judge, end_job};
use crate::lender::Lender;
use crate::shown::first_shown;
use codec_core::{Core, Job};
use codec_model::{Entry, Opening, Showing, Shown};
use coder_api::Coder;
use segmented_list::{Items, SegmentedList};
use std::alloc::Global;
use wc_base::NoMemory;

// How many of the entries are lawful, after those that were made.
fn walk<C: Coder>(
    alloc: Global,
    entries: &SegmentedList<Entry>,
    judge: &mut Judge<C>,
    lender: &mut Lender<C>,
) -> Result<usize, NoMemory>
    requires stands { IsJudged judge.old.core judge.old.job lender.old }
    requires empty { judge.old.core.history ≡ [] }
    ensures { IfOk result (λ n. HasWalked lender.old judge.old.core entries.now n
        judge.new.core judge.new.job lender.new) }
{
    let mut left = Items::of(entries.segments());
    let mut count: usize = 0;
    while let Some(entry) = left.next() {
        let lawful = judge.take(alloc, entry, lender)?;
        if !lawful {
            return Ok(count);
        }
        // No memory holds as many entries.
        count = count.checked_add(1).ok_or(NoMemory)?;
    }
    Ok(count)
}

// Ends the item at work, if one is, for want of memory.
fn retire<C: Coder>(
    core: &mut Core<C>,
    job: Option<Job<C>>,
    lender: &mut Lender<C>,
) -> Result<(), NoMemory>
    requires { IsJudged core.old job lender.old }
    ensures front { OnOk result (ShowsFront core.old core.new) }
    ensures out { OnOk result (lender.new.out ≡ id_in core.new.slot) }
    ensures home { OnOk result (lender.new.home ≡ lender.old.home) }
{
    match job {
        None => Ok(()),
        Some(job) => {
            let ready = emptied(job, lender)?;
            let done = ready.no_memory();
            end_job(core, lender, done, 0)
        }
    }
}

// What the entries that were made showed, with the box back at the lender.
fn finish<C: Coder>(
    judge: Judge<C>,
    lender: &mut Lender<C>,
) -> Result<SegmentedList<Showing>, NoMemory>
    requires { IsJudged judge.core judge.job lender.old }
    ensures shows { IfOk result (λ xs. (n : ℕ) → n ≤ length judge.core.history
        → take n (map shown_of xs) ≡ each_shown judge.core.opening (take n judge.core.history)) }
    ensures back { OnOk result (lender.new.out ≡ None) }
    ensures home { OnOk result (lender.new.home ≡ lender.old.home) }
{
    let Judge { mut core, job } = judge;
    retire(&mut core, job, lender)?;
    let (_, showings, slot) = core.into_parts();
    lender.settle(slot)?;
    Ok(showings)
}

/// What the lawful entries of a codec that was opened so show by its definition (W3C WebCodecs): those before the first that
/// is not lawful (`lawful_shown`). An entry is lawful where it is legal after those before it; where an item lacked a box, its
/// work was done only with a coder that there is, and where it lacked none, it was not refused one (our choice).
///
/// The coders do the codec's work again, and are all back in their places then. `NoMemory` comes from want of memory alone.
pub fn shown_by<C: Coder>(
    alloc: Global,
    lender: &mut Lender<C>,
    opening: Opening,
    entries: &SegmentedList<Entry>,
) -> Result<SegmentedList<Shown>, NoMemory>
    requires low { 1 ≤ opening.saturation }
    requires high { opening.saturation ≤ 64 }
    requires back { lender.old.out ≡ None }
    ensures shown { IfOk result (λ xs. xs ≡ lawful_shown lender.old.home opening entries.now) }
    ensures same { OnOk result (lender.new ≡ lender.old) }
{
    let core = Core::open(alloc, opening.kind, opening.saturation, 0)?;
    let mut judge = Judge { core, job: None };
    let count = walk(alloc, entries, &mut judge, lender)?;
    let showings = finish(judge, lender)?;
    first_shown(alloc, showings, count)
}
