// Laws of plans and of residuals.
ghost use Rattle.flac_plans.specs.Search.{NoPlanIsBelow, NoPlanIsBelowLeasts};
ghost use Rattle.flac_plans.specs.ResidualLaws.{WrittenResidualsAreRead};

use flac_rice::residuals_are_spelled;

/// No plan has fewer bits than the sums of the finest parts say: an order whose least is not below the bits of another
/// need not be searched.
pub fn no_plan_is_below()
    ensures { NoPlanIsBelow }
{}

/// The same, by a number that the bits of the finest parts do not go below, and how such a number is made of each part's
/// sum.
pub fn no_plan_is_below_leasts()
    ensures { NoPlanIsBelowLeasts }
{}

/// What `write_residual` writes spells the residual, and where it stands, the residual is read (RFC 9639, section
/// 9.2.7).
pub fn written_residuals_are_read()
    ensures { WrittenResidualsAreRead }
{
    residuals_are_spelled()
}
