// Calls after which what their entry let go has gone back.
ghost use Rattle.std.specs.Prelude.{◌≡◌};
ghost use Rattle.seat_lock.specs.Seats.{IsIdleAt};
ghost use Rattle.shared_pool.specs.Steps as pools;
ghost use Rattle.shared_slots.specs.Steps.{IsFree};
ghost use Rattle.shared_codec.specs.Calls.{MayAlways};
ghost use Rattle.shared_codec.specs.Keeps.{Keeps};
ghost use Rattle.shared_codec.specs.Settles.{Settles};
ghost use Rattle.shared_codec.specs.Settled.{AnswerTells, TurnOnceTells, ReclaimOnceTells};

use crate::codec::{CodecSeat, SharedCodec};
use codec_media::{Removed, Turned};
use codec_model::Call;
use coder_api::Coder;
use shared_pool::{PoolSeat, SharedPool};
use shared_slots::{SlotRegistry, SlotSeat};
use std::sync::Wait;
use wc_base::{DomError, NoMemory, Who};

/// What a caller gets of a call: its entry's place, the exception of one that is refused, and a flush's promise.
#[derive(Debug, PartialEq, Drop)]
pub struct Answer {
    pub place: u64,
    pub exception: Option<DomError>,
    pub promise: Option<u64>,
}

// The place of a turn's entry, and what was removed by it.
fn parts_of<C: Coder>(turned: Turned<C>) -> (u64, Option<Removed<C>>)
    ensures { turned ≡ record { place = result.0; removed = result.1 } }
{
    (turned.place, turned.removed)
}

impl<C: Coder> SharedCodec<C> {
    /// A call, as `call` makes it; what it lets go has gone back by its entry.
    pub fn call_once<R: Wait>(
        &self,
        rt: &R,
        seat: &mut CodecSeat<C>,
        who: Who,
        call: Call,
        slots: &SlotRegistry<C>,
        slot_seat: &mut SlotSeat<C>,
        pool: &SharedPool,
        pool_seat: &mut PoolSeat,
    ) -> Result<Answer, NoMemory>
        requires seat { IsIdleAt self.now.id seat.old }
        requires may { MayAlways call }
        requires slots { slots.now.id ≡ self.now.slots }
        requires pool { pool.now ≡ self.now.pool }
        requires slot_seat { IsFree slots.now.id slot_seat.old }
        requires pool_seat { pools.IsFree pool.now pool_seat.old }
        ensures kept { Keeps self.now.id seat.old seat.new }
        ensures kept_slots { Keeps slots.now.id slot_seat.old slot_seat.new }
        ensures free_slots { IsFree slots.now.id slot_seat.new }
        ensures kept_pool { Keeps pool.now pool_seat.old pool_seat.new }
        ensures free_pool { pools.IsFree pool.now pool_seat.new }
        ensures answer { AnswerTells self.now who call result seat.old seat.new }
        ensures settles { Settles self.now seat.old.me.0 seat.new.me.0
            slot_seat.old.me.0 slot_seat.new.me.0 pool_seat.old.me.0 pool_seat.new.me.0 }
    {
        match self.call(rt, seat, who, call) {
            Ok(reply) => {
                let place = reply.place;
                let answer = Answer {
                    place,
                    exception: reply.exception,
                    promise: reply.promise,
                };
                self.let_go(
                    rt,
                    place,
                    reply.media,
                    reply.coder,
                    slots,
                    slot_seat,
                    pool,
                    pool_seat,
                );
                Ok(answer)
            }
            Err(NoMemory) => Err(NoMemory),
        }
    }

    /// A turn, as `turn` makes it, which answers its entry's place; what it lets go has gone back by its entry.
    pub fn turn_once<R: Wait>(
        &self,
        rt: &R,
        seat: &mut CodecSeat<C>,
        slots: &SlotRegistry<C>,
        slot_seat: &mut SlotSeat<C>,
        pool: &SharedPool,
        pool_seat: &mut PoolSeat,
    ) -> Option<u64>
        requires seat { IsIdleAt self.now.id seat.old }
        requires slots { slots.now.id ≡ self.now.slots }
        requires pool { pool.now ≡ self.now.pool }
        requires slot_seat { IsFree slots.now.id slot_seat.old }
        requires pool_seat { pools.IsFree pool.now pool_seat.old }
        ensures kept { Keeps self.now.id seat.old seat.new }
        ensures kept_slots { Keeps slots.now.id slot_seat.old slot_seat.new }
        ensures free_slots { IsFree slots.now.id slot_seat.new }
        ensures kept_pool { Keeps pool.now pool_seat.old pool_seat.new }
        ensures free_pool { pools.IsFree pool.now pool_seat.new }
        ensures turn { TurnOnceTells self.now result seat.old seat.new }
        ensures settles { Settles self.now seat.old.me.0 seat.new.me.0
            slot_seat.old.me.0 slot_seat.new.me.0 pool_seat.old.me.0 pool_seat.new.me.0 }
    {
        let Some(turned) = self.turn(rt, seat) else {
            return None;
        };
        let (place, removed) = parts_of(turned);
        match removed {
            None => Some(place),
            Some(gone) => {
                self.let_go(
                    rt, place, gone.media, gone.coder, slots, slot_seat, pool, pool_seat,
                );
                Some(place)
            }
        }
    }

    /// A reclaim, as `reclaim` makes it, which answers its entry's place; what it lets go has gone back by its entry.
    pub fn reclaim_once<R: Wait>(
        &self,
        rt: &R,
        seat: &mut CodecSeat<C>,
        now: u64,
        slots: &SlotRegistry<C>,
        slot_seat: &mut SlotSeat<C>,
        pool: &SharedPool,
        pool_seat: &mut PoolSeat,
    ) -> Option<u64>
        requires seat { IsIdleAt self.now.id seat.old }
        requires slots { slots.now.id ≡ self.now.slots }
        requires pool { pool.now ≡ self.now.pool }
        requires slot_seat { IsFree slots.now.id slot_seat.old }
        requires pool_seat { pools.IsFree pool.now pool_seat.old }
        ensures kept { Keeps self.now.id seat.old seat.new }
        ensures kept_slots { Keeps slots.now.id slot_seat.old slot_seat.new }
        ensures free_slots { IsFree slots.now.id slot_seat.new }
        ensures kept_pool { Keeps pool.now pool_seat.old pool_seat.new }
        ensures free_pool { pools.IsFree pool.now pool_seat.new }
        ensures reclaim { ReclaimOnceTells self.now now result seat.old seat.new }
        ensures settles { Settles self.now seat.old.me.0 seat.new.me.0
            slot_seat.old.me.0 slot_seat.new.me.0 pool_seat.old.me.0 pool_seat.new.me.0 }
    {
        let Some(gone) = self.reclaim(rt, seat, now) else {
            return None;
        };
        let place = gone.place;
        self.let_go(
            rt, place, gone.media, gone.coder, slots, slot_seat, pool, pool_seat,
        );
        Some(place)
    }
}
