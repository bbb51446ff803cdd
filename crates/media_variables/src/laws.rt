// What stands of the references that variables hold, whatever steps are made.
ghost use Rattle.media_variables.specs.Held.{StayHeld, DoLegally};

use wc_pool::references_are_apart;

/// A law: after a step on media each reference that a variable holds is live, and held by no other variable, where that was
/// so before; and what the step does to the pool is legal there.
pub fn references_stay_held()
    ensures held { StayHeld }
    ensures legal { DoLegally }
{
    references_are_apart();
}
