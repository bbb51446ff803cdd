// Parts of a codec's steps.
ghost use Rattle.std.specs.Prelude.{◌≡◌, ◌+◌, ◌&&◌, not, is_none, IfOk};
ghost use Rattle.codec_core.specs.Codec.{kept_box, handed_back, removed_if};

use crate::reply::Removed;
use coder_api::{Coder, SlotBox};
use wc_base::{DomError, NoMemory};

/// Leaves a box where it stays, and else takes it out, stopped.
pub(crate) fn hand_back<C: Coder>(slot: &mut Option<SlotBox<C>>, stays: bool) -> Option<SlotBox<C>>
    ensures left { slot.new ≡ kept_box stays slot.old }
    ensures taken { result ≡ handed_back stays slot.old }
{
    if stays {
        return None;
    }
    let mut coder = slot.take()?;
    coder.stop();
    Some(coder)
}

/// Whether the box stays at a call that removes all that is queued, where it is not refused, or does not.
pub(crate) fn box_stays(removes: bool, exception: Option<DomError>) -> bool
    ensures { result ≡ not (removes && is_none exception) }
{
    !(removes && exception.is_none())
}

pub(crate) fn removed_if<C: Coder>(
    removes: bool,
    place: u64,
    coder: Option<SlotBox<C>>,
) -> Option<Removed<C>>
    ensures { result ≡ removed_if removes place coder }
{
    if removes {
        Some(Removed { place, coder })
    } else {
        None
    }
}

/// The places for a call's entry and those of all its later steps, beside what is kept for others.
pub(crate) fn more_places(room: usize, spare: usize) -> Result<usize, NoMemory>
    ensures { IfOk result (λ n. n ≡ room + spare + 9) }
{
    room.checked_add(spare)
        .and_then(|n| n.checked_add(9))
        .ok_or(NoMemory)
}
