// Where the size falls.
ghost use Rattle.std.specs.Prelude.{◌≡◌, ◌≤◌, ◌<◌, true, IfOk};
ghost use Rattle.codec_model.specs.Replay.{IsLegal};
ghost use Rattle.segmented_list.specs.Segments.{joined};
ghost use Rattle.codec_laws.specs.Laws.{IsFall};
ghost use Rattle.codec_laws.specs.Seen.{fall_from};
ghost use Rattle.codec_laws.specs.Sights.{is_coded as the_coded, falls as the_fall, dequeues_at, sights as the_sights};

use crate::laws::size_falls_between;
use crate::seen::sights;
use crate::sight::Sight;
use codec_model::{Entry, Opening, WorkKind};
use segmented_list::Segment;
use std::alloc::Global;
use wc_base::NoMemory;

fn is_coded(asks: Option<WorkKind>) -> bool
    ensures { result ≡ the_coded asks }
{
    match asks {
        Some(WorkKind::Coded) => true,
        _ => false,
    }
}

fn falls(before: u64, sight: &Sight) -> bool
    ensures { result ≡ the_fall before sight.now }
{
    if is_coded(sight.asks) {
        sight.size <= before
    } else {
        sight.size < before
    }
}

// The first place between two others at which the size falls.
fn first_fall(seen: &[Sight], after: u64, before: u64) -> Option<u64>
    ensures { result ≡ fall_from after before 0 0 seen.now }
{
    let mut place = 0;
    let mut size = 0;
    let mut rest = seen;
    while let [sight, more @ ..] = rest {
        if after < place && place < before && falls(size, sight) {
            return Some(place);
        }
        place += 1;
        size = sight.size;
        rest = more;
    }
    None
}

/// A place between two turns of the event `dequeue` at which the size falls: more coded messages are processed or removed there
/// than its entry queues.
pub fn fall_between(
    alloc: Global,
    opening: Opening,
    history: &[Segment<Entry>],
    after: u64,
    before: u64,
) -> Result<u64, NoMemory>
    requires saturation { 1 ≤ opening.saturation }
    requires legal { IsLegal opening (joined history.now) }
    requires order { after < before }
    requires first { dequeues_at (the_sights opening (joined history.now)) after ≡ true }
    requires last { dequeues_at (the_sights opening (joined history.now)) before ≡ true }
    ensures { IfOk result (IsFall (the_sights opening (joined history.now)) after before) }
{
    size_falls_between();
    let seen = sights(alloc, opening, history)?;
    match first_fall(&seen, after, before) {
        Some(place) => Ok(place),
        None => unreachable!(),
    }
}
