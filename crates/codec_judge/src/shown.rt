// What entries showed, put together.
ghost use Rattle.std.specs.Prelude.{◌≡◌, ◌≤◌, ◌++◌, IfOk, OnOk, length, map, take};
ghost use Rattle.codec_model.specs.Shown.{shown_of};

use codec_model::{Showing, Shown};
use segmented_list::{SegmentedList, SegmentedVec};
use std::alloc::Global;
use wc_base::NoMemory;

fn push_shown(
    alloc: Global,
    showings: Vec<Showing>,
    most: usize,
    shown: &mut SegmentedVec<Shown>,
) -> Result<(), NoMemory>
    requires { length shown.old.items ≤ most }
    ensures { OnOk result
        (shown.new.items ≡ take most (shown.old.items ++ map shown_of showings.items)) }
{
    for showing in showings {
        if shown.len() < most {
            shown.try_push(showing.into_shown(alloc)?)?;
        }
    }
    Ok(())
}

/// What each of so many of a codec's entries showed, from the first on.
pub(crate) fn first_shown(
    alloc: Global,
    showings: SegmentedList<Showing>,
    most: usize,
) -> Result<SegmentedList<Shown>, NoMemory>
    ensures { IfOk result (λ xs. xs ≡ take most (map shown_of showings)) }
{
    let mut shown = SegmentedVec::new(alloc);
    for segment in showings.into_segments() {
        push_shown(alloc, segment.into_items(), most, &mut shown)?;
    }
    Ok(SegmentedList::of(shown))
}
