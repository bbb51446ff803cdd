//! Laws of locks.
ghost use Rattle.seat_lock.specs.Seen.{NoneHasSeenMore};

use crate::told::Told;

/// Law: where a seat has all 2^32 parts, as the one that is handed to `SeatLock::close` has, each other seat and each token of the
/// lock has seen what this seat has seen, or a beginning of it. It holds in each state that the lock's rule allows.
pub fn none_has_seen_more<S: Told>()
    ensures { (about : S.About) → NoneHasSeenMore S.mints S.spends (S.tells about) }
{}
