// Laws of the histories that pools can have.
ghost use Rattle.std.specs.Prelude.{◌≡◌, true, false};
ghost use Rattle.wc_pool.specs.Bag.{held_in, is_legal_pool};
ghost use Rattle.wc_pool.specs.Laws.{EndOnce, LiveAreNumbered, MadeAreNew};
ghost use Rattle.wc_pool.specs.Laws.{ended_twice, given_back_too_soon, two_references};

/// A law: a reference that is made was not live before, so no two live references have one number,
/// and what is live has a number below the next one.
pub fn references_are_apart()
    ensures made { MadeAreNew }
    ensures live { LiveAreNumbered }
{}

/// A law: in a history that a pool can have, each reference ends once at most.
pub fn references_end_once()
    ensures { EndOnce }
{}

/// A law: whole histories, computed. A resource with two references is given back as both have
/// ended; no pool gives it back before, or ends one of them twice.
pub fn whole_histories()
    ensures legal { is_legal_pool two_references ≡ true }
    ensures held { held_in two_references ≡ 0 }
    ensures early { is_legal_pool given_back_too_soon ≡ false }
    ensures twice { is_legal_pool ended_twice ≡ false }
{}
