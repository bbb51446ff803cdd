// Open media of a caller's variables, as they are lent to codecs.
ghost use Rattle.std.specs.Prelude.{◌≡◌};

use codec_model::HeldMedium;
use media_variables::Variables;
use shared_codec::Lender;
use shared_pool::{PoolSeat, SharedPool};
use shared_variables::lend_at;
use std::sync::Wait;
use wc_base::{By, NoMemory};
use wc_pool::MediaRef;

/// A variable of a caller whose medium is open, for an encode.
#[derive(Drop)]
pub(crate) struct LentVariable<'a> {
    variables: &'a mut Variables,
    variable: u32,
}

impl<'a> LentVariable<'a> {
    /// The variable with this number among these.
    pub(crate) fn new(variables: &'a mut Variables, variable: u32) -> LentVariable<'a>
        ensures borrowed { result.variables.ghost_name ≡ variables.entry.ghost_name }
        ensures variables { result.variables.now ≡ variables.old }
        ensures variable { result.variable ≡ variable }
    {
        LentVariable {
            variables,
            variable,
        }
    }
}

impl<'a> Lender for LentVariable<'a> {
    ghost use Rattle.desk_callers.specs.Lending.{HasOpen, LendsMedium, StaysSeen, seen_rests};

    ghost has_open = { HasOpen };

    ghost lends = { LendsMedium };

    ghost stays = { StaysSeen };

    ghost rests = { seen_rests };

    fn lend<R: Wait>(
        &mut self,
        rt: &R,
        pool: &SharedPool,
        seat: &mut PoolSeat,
        by: By,
    ) -> Result<(HeldMedium, MediaRef), NoMemory> {
        lend_at(rt, pool, seat, by, self.variables, self.variable)
    }
}
