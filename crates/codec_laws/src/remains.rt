// What is left to do after a history.
ghost use Rattle.std.specs.Prelude.{◌≡◌, ◌≤◌, IfOk, Decides};
ghost use Rattle.codec_model.specs.Replay.{IsLegal};
ghost use Rattle.segmented_list.specs.Segments.{joined};
ghost use Rattle.codec_laws.specs.Left.{left_after, IsQuietAfter, IsNotStuck};
ghost use Rattle.codec_laws.specs.Seen.{IsAfter};

use crate::laws::nothing_stuck;
use crate::seen::follow;
use codec_follow::{Follower, legal_steps_are_followed};
use codec_model::{Entry, Opening};
use segmented_list::{Items, Segment};
use std::alloc::Global;
use wc_base::NoMemory;

// The follower of a whole history.
fn followed(
    alloc: Global,
    opening: Opening,
    history: &[Segment<Entry>],
) -> Result<Follower, NoMemory>
    requires { IsLegal opening (joined history.now) }
    ensures { IfOk result (IsAfter opening (joined history.now)) }
{
    legal_steps_are_followed();
    let mut follower = Follower::open(alloc, opening)?;
    let mut rest = Items::of(history);
    while let Some(entry) = rest.next() {
        let _shown = follow(&mut follower, entry)?;
    }
    Ok(follower)
}

/// How many starts, ends of items and turns are left at most after a history: 7 for each message that waits, 4 for each queued
/// item, 3 for one at work, 2 for each task that unblocks the queue, and 1 for each other task. While something is left, one
/// of them may come next, and each of them leaves fewer.
pub fn left(alloc: Global, opening: Opening, history: &[Segment<Entry>]) -> Result<u64, NoMemory>
    requires { IsLegal opening (joined history.now) }
    ensures left { IfOk result (λ n. n ≡ left_after opening (joined history.now)) }
    ensures law { 1 ≤ opening.saturation → IsNotStuck opening (joined history.now) }
{
    nothing_stuck();
    let follower = followed(alloc, opening, history)?;
    Ok(follower.into_left())
}

/// Whether a codec is quiet after a history: no item is queued or at work, and no task is queued. It is so exactly where
/// nothing is left. Then the promise of each flush has ended, and the size is 0.
pub fn quiet(alloc: Global, opening: Opening, history: &[Segment<Entry>]) -> Result<bool, NoMemory>
    requires saturation { 1 ≤ opening.saturation }
    requires legal { IsLegal opening (joined history.now) }
    ensures quiet { IfOk result (λ q. Decides q (IsQuietAfter opening (joined history.now))) }
    ensures law { IsNotStuck opening (joined history.now) }
{
    let left = left(alloc, opening, history)?;
    Ok(left == 0)
}
