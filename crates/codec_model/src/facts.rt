// What holds of a codec after every legal history.
ghost use Rattle.codec_model.specs.Facts.{Always, IsNeverStuck, EndsQuiet, LeavesFewer};
ghost use Rattle.codec_model.specs.Held.{HeldStays, HeldMoves};

/// The facts that keep a codec from being stuck, after every legal history of a codec that some coded items saturate.
pub fn never_stuck()
    ensures facts { Always IsNeverStuck }
    ensures quiet { Always EndsQuiet }
{}

/// After every legal history each start, end of an item and turn leaves fewer of them, so that a codec that no caller
/// calls comes to rest.
pub fn steps_leave_fewer()
    ensures { LeavesFewer }
{}

/// A codec holds the references of the encodes that it accepted, in their order, until an entry lets them go: the end of an
/// item what the item held, a removal what was queued.
pub fn references_are_held()
    ensures all { HeldStays }
    ensures apart { HeldMoves }
{}
