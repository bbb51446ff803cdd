//! The value of a passage.
ghost use Rattle.std.specs.Prelude.{◌≡◌};
ghost use Rattle.std.specs.Borrow.{sem};

use std::marker::Model;

/// The value behind a lock, in the hands of the seat whose passage it is. It cannot be dropped: `SeatLock::leave` takes
/// it back. Clauses see it as the value.
pub struct Held<S> {
    pub(crate) state: S,
}

impl<S> Model for Held<S> {
    ghost Value = { S };

    ghost view = { λ h. h.state };
}

impl<S> Held<S> {
    ghost use Rattle.seat_lock.specs.Lends.{LendsState};

    /// The value, to read and to change. It takes no memory.
    pub fn state(&mut self) -> &mut S
        ensures* writes_back { sem 𝓛 (LendsState S.row self.entry result) }
        ensures value { result.now ≡ self.old }
    {
        &mut self.state
    }
}
