// What entries showed, put together.
ghost use Rattle.std.specs.Prelude.{◌≡◌, ◌++◌, IfOk, OnOk, map};
ghost use Rattle.codec_model.specs.Shown.{shown_of};

use codec_model::{Showing, Shown};
use segmented_list::{SegmentedList, SegmentedVec};
use std::alloc::Global;
use wc_base::NoMemory;

fn push_shown(
    alloc: Global,
    showings: Vec<Showing>,
    shown: &mut SegmentedVec<Shown>,
) -> Result<(), NoMemory>
    ensures { OnOk result (shown.new.items ≡ shown.old.items ++ map shown_of showings.items) }
{
    for showing in showings {
        shown.try_push(showing.into_shown(alloc)?)?;
    }
    Ok(())
}

/// What each of a codec's entries showed.
pub(crate) fn all_shown(
    alloc: Global,
    showings: SegmentedList<Showing>,
) -> Result<SegmentedList<Shown>, NoMemory>
    ensures { IfOk result (λ xs. xs ≡ map shown_of showings) }
{
    let mut shown = SegmentedVec::new(alloc);
    for segment in showings.into_segments() {
        push_shown(alloc, segment.into_items(), &mut shown)?;
    }
    Ok(SegmentedList::of(shown))
}
