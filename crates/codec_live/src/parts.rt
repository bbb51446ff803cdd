// Parts of a codec's steps.
ghost use Rattle.std.specs.Prelude.{◌≡◌, ◌&&◌, not, is_none};
ghost use Rattle.codec_live.specs.Live.{kept_box, handed_back};

use coder_api::{Coder, SlotBox};
use wc_base::DomError;

/// Leaves a box where it stays, and else takes it out, stopped.
pub(crate) fn hand_back<C: Coder>(slot: &mut Option<SlotBox<C>>, stays: bool) -> Option<SlotBox<C>>
    ensures left { slot.new ≡ kept_box stays slot.old }
    ensures taken { result ≡ handed_back stays slot.old }
{
    if stays {
        return None;
    }
    let mut coder = slot.take()?;
    coder.stop();
    Some(coder)
}

/// Whether the box stays at a call that removes all that is queued, where it is not refused, or does not.
pub(crate) fn box_stays(removes: bool, exception: Option<DomError>) -> bool
    ensures { result ≡ not (removes && is_none exception) }
{
    !(removes && exception.is_none())
}
