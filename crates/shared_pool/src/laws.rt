// Laws of shared pools.
ghost use Rattle.shared_pool.specs.Refs.{LiveClaimsAreLive};

use wc_pool::references_are_apart;

/// Law: a reference that a log began with, and whose claim no later passage has spent, is live in the history of the
/// whole log.
pub fn live_claims_are_live_references()
    ensures { LiveClaimsAreLive }
{
    references_are_apart();
}
