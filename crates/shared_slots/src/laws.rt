// Laws of shared registries.
ghost use Rattle.shared_slots.specs.Steps.{LiveClaimsAreOut};

/// Law: a box that was out where a log began, and whose claim no later passage has spent, is out after the whole log.
pub fn live_claims_are_boxes_out()
    ensures { LiveClaimsAreOut }
{}
