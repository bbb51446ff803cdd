// A shared pool, at one seat.
ghost use Rattle.std.specs.Prelude.{◌≡◌};
ghost use Rattle.shared_pool.specs.Steps.{IsFree};

use crate::pool::{PoolSeat, SharedPool};
use bytes::Bytes;
use std::sync::Wait;
use wc_base::{By, NoMemory};
use wc_pool::{MediaRef, RefPool};

/// A shared pool at one seat: a `RefPool` whose calls are those of `SharedPool`, one passage each. What stands over a
/// `RefPool`, as audio data and video frames, stands over it too.
#[derive(Drop)]
pub struct PoolAt<'a, R> {
    rt: &'a R,
    pool: &'a SharedPool,
    seat: &'a mut PoolSeat,
    ghost free: { IsFree pool.now seat.now },
}

impl<'a, R> PoolAt<'a, R> {
    ghost use Rattle.shared_pool.specs.At.{SitsAt};

    /// A shared pool, at a seat of it that holds no claim. What is made with the one is made with the other.
    pub fn new(rt: &'a R, pool: &'a SharedPool, seat: &'a mut PoolSeat) -> PoolAt<'a, R>
        requires { IsFree pool.now seat.old }
        ensures { SitsAt pool.now seat.entry result }
    {
        PoolAt { rt, pool, seat }
    }
}

impl<'a, R: Wait> RefPool for PoolAt<'a, R> {
    ghost use Rattle.std.specs.Prelude.{[], None};
    ghost use Rattle.wc_pool.specs.Pools.{with_token};
    ghost use Rattle.shared_pool.specs.At.{AddsAt, IsRefAt, MadeAt, at_none};

    ghost is_of = { IsRefAt };

    ghost adds = { AddsAt };

    ghost stays = { MadeAt [] };

    ghost rests = { at_none };

    ghost lasting = { with_token None };

    ghost lasts = { λ r q same. same };

    fn make(&mut self, by: By, bytes: Bytes) -> Result<MediaRef, NoMemory> {
        self.pool.make(self.rt, self.seat, by, bytes)
    }

    fn clone_ref(&mut self, by: By, r: &mut MediaRef) -> Result<MediaRef, NoMemory> {
        self.pool.clone_ref(self.rt, self.seat, by, r)
    }

    fn end(&mut self, by: By, r: MediaRef) -> Option<Bytes> {
        self.pool.end(self.rt, self.seat, by, r)
    }
}
