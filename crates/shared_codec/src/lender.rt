// Who lends open media to a codec.
ghost use Rattle.std.specs.Prelude.{◌≡◌, [], ◌∷◌, IfOk, OnErr};
ghost use Rattle.atomic_table.specs.Seated.{TableId};
ghost use Rattle.wc_pool.specs.declared.reference.MediaRef.{MediaRef};
ghost use Rattle.wc_pool.specs.Pools.{cloned_by};
ghost use Rattle.codec_model.specs.declared.entry.HeldMedium.{HeldMedium};
ghost use Rattle.codec_media.specs.Holding.{pair_of};
ghost use Rattle.seat_lock.specs.Seats.{IsSameSeat};
ghost use Rattle.seat_lock.specs.Since.{MadeSince};
ghost use Rattle.shared_pool.specs.Refs.{IsPoolRef};
ghost use Rattle.shared_pool.specs.Steps.{IsFree};

use codec_model::{HeldMedium, MediaShape, Pair};
use shared_pool::{PoolSeat, SharedPool};
use std::sync::Wait;
use wc_base::{By, NoMemory};
use wc_pool::MediaRef;

/// Who lends an open medium to a codec. With each loan comes one reference more to the medium's resource, which the codec
/// holds from then on.
pub trait Lender {
    /// It has an open medium of this pool.
    ghost has_open: { TableId → Self → Type 0 };

    /// What it lends with this reference.
    ghost lends: { Self → HeldMedium → MediaRef → Type 0 };

    /// What a loan leaves as it was.
    ghost stays: { Self → Self → Type 0 };

    /// That is so where nothing is lent.
    ghost rests: { (lender : Self) → stays lender lender };

    /// One more reference to the open medium's resource, by this cause, with the medium's shape and bytes. It makes one entry
    /// of the pool. `NoMemory` makes none.
    fn lend<R: Wait>(
        &mut self,
        rt: &R,
        pool: &SharedPool,
        seat: &mut PoolSeat,
        by: By,
    ) -> Result<(HeldMedium, MediaRef), NoMemory>
        requires open { has_open pool.now self.old }
        requires seat { IsFree pool.now seat.old }
        ensures same { IsSameSeat seat.old seat.new }
        ensures free { IsFree pool.now seat.new }
        ensures lent { IfOk result (λ x. lends self.old x.0 x.1) }
        ensures pair { IfOk result (λ x. x.0.pair ≡ pair_of x.1) }
        ensures made { let since = MadeSince seat.old.me.0 seat.new.me.0 in
            IfOk result (λ x. since (cloned_by by x.1 ∷ [])) }
        ensures of { IfOk result (λ x. IsPoolRef pool.now x.1) }
        ensures err { OnErr result (MadeSince seat.old.me.0 seat.new.me.0 []) }
        ensures stays { stays self.old self.new }
        ensures still { has_open pool.now self.new };
}

/// An open medium: its shape, and a reference to its resource, which has the bytes.
#[derive(Drop)]
pub struct OpenMedium {
    pub shape: MediaShape,
    pub reference: MediaRef,
}

impl Lender for OpenMedium {
    ghost use Rattle.shared_codec.specs.Lends.{IsOpenOf, LendsOpen, StaysOpen, open_rests};

    ghost has_open = { IsOpenOf };

    ghost lends = { LendsOpen };

    ghost stays = { StaysOpen };

    ghost rests = { open_rests };

    fn lend<R: Wait>(
        &mut self,
        rt: &R,
        pool: &SharedPool,
        seat: &mut PoolSeat,
        by: By,
    ) -> Result<(HeldMedium, MediaRef), NoMemory> {
        let shape = self.shape;
        let bytes = self.reference.bytes().clone()?;
        let clone = pool.clone_ref(rt, seat, by, &mut self.reference)?;
        let pair = Pair {
            resource: clone.resource(),
            reference: clone.number(),
        };
        Ok((HeldMedium { shape, bytes, pair }, clone))
    }
}
