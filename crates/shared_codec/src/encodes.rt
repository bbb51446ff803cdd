// Encodes of a shared codec.
ghost use Rattle.std.specs.Prelude.{◌≡◌, [], true, OnOk, OnErr};
ghost use Rattle.codec_model.specs.Replay.{is_configured};
ghost use Rattle.codec_core.specs.Codec.{state_at};
ghost use Rattle.seat_lock.specs.Seats.{IsIdleAt};
ghost use Rattle.shared_pool.specs.Steps.{IsFree};
ghost use Rattle.shared_codec.specs.Encodes.{EncodeTells};
ghost use Rattle.shared_codec.specs.Keeps.{Keeps};
ghost use Rattle.shared_codec.specs.Owes.{Owes};
ghost use Rattle.shared_codec.specs.Settles.{SettlesInPool};
ghost use Rattle.shared_codec.specs.Gives.{EncodeGives};

use crate::calls::{call_placed, has_replied};
use crate::codec::{CodecSeat, SharedCodec};
use crate::lender::Lender;
use crate::passage::{no_acquires, passage_if};
use codec_media::{HoldingCore, Reply};
use codec_model::{Call, Handed};
use coder_api::Coder;
use shared_pool::{PoolSeat, SharedPool};
use std::sync::Wait;
use wc_base::{By, NoMemory, Who};

// The clone that is lent, and the encode that keeps it. A clone that is not kept is ended.
fn encode_lent<C: Coder, L: Lender, R: Wait>(
    rt: &R,
    codec: u32,
    core: &mut HoldingCore<C>,
    who: Who,
    lender: &mut L,
    pool: &SharedPool,
    seat: &mut PoolSeat,
) -> Result<Reply<C>, NoMemory>
    requires accepted { is_configured (state_at core.old.codec).control ≡ true }
    requires seat { IsFree pool.now seat.old }
    requires open { L.has_open pool.now lender.old }
    ensures kept { Keeps pool.now seat.old seat.new }
    ensures free { IsFree pool.now seat.new }
    ensures stays { L.stays lender.old lender.new }
    ensures still { L.has_open pool.now lender.new }
    ensures encoded { EncodeGives codec pool.now core.old core.new who (L.lends lender.old) result
        seat.old.me.0 seat.new.me.0 }
{
    let (place, _, _) = core.core().look();
    let by = By::Codec { codec, place };
    let (held, clone) = lender.lend(rt, pool, seat, by)?;
    let call = Call::Encode(Handed::Cloned(held));
    match core.call(who, call, Some(clone)) {
        Ok(reply) => Ok(reply),
        Err(Some(clone)) => {
            pool.end(rt, seat, by, clone);
            Err(NoMemory)
        }
        Err(None) => unreachable!(),
    }
}

// An encode of an open medium: it is refused, or its clone is lent and kept.
fn encode_in<C: Coder, L: Lender, R: Wait>(
    rt: &R,
    codec: u32,
    core: &mut HoldingCore<C>,
    who: Who,
    lender: &mut L,
    pool: &SharedPool,
    seat: &mut PoolSeat,
) -> Result<Reply<C>, NoMemory>
    requires seat { IsFree pool.now seat.old }
    requires open { L.has_open pool.now lender.old }
    ensures kept { Keeps pool.now seat.old seat.new }
    ensures free { IsFree pool.now seat.new }
    ensures stays { L.stays lender.old lender.new }
    ensures still { L.has_open pool.now lender.new }
    ensures encoded { EncodeGives codec pool.now core.old core.new who (L.lends lender.old) result
        seat.old.me.0 seat.new.me.0 }
{
    match core.encode_refusal(false) {
        Some(_) => call_placed(core, who, Call::Encode(Handed::Kept)),
        None => encode_lent(rt, codec, core, who, lender, pool, seat),
    }
}

impl<C: Coder> SharedCodec<C> {
    /// An encode of an open medium, by who lends it, as `Core::call` makes it. Where the codec is configured the medium is lent
    /// inside the passage, after the check, and what comes with it is kept; else the encode is refused, and nothing is lent.
    /// At `NoMemory` no reference was made, or it was ended.
    pub fn encode<L: Lender, R: Wait>(
        &self,
        rt: &R,
        seat: &mut CodecSeat<C>,
        who: Who,
        lender: &mut L,
        pool: &SharedPool,
        pool_seat: &mut PoolSeat,
    ) -> Result<Reply<C>, NoMemory>
        requires seat { IsIdleAt self.now.id seat.old }
        requires pool { pool.now ≡ self.now.pool }
        requires pool_seat { IsFree pool.now pool_seat.old }
        requires open { L.has_open pool.now lender.old }
        ensures kept { Keeps self.now.id seat.old seat.new }
        ensures kept_pool { Keeps pool.now pool_seat.old pool_seat.new }
        ensures free { IsFree pool.now pool_seat.new }
        ensures stays { L.stays lender.old lender.new }
        ensures still { L.has_open pool.now lender.new }
        ensures reply { EncodeTells self.now who (L.lends lender.old) result seat.old seat.new
            pool_seat.old.me.0 pool_seat.new.me.0 }
        ensures settles { OnOk result (SettlesInPool self.now seat.old.me.0 seat.new.me.0
            pool_seat.old.me.0 pool_seat.new.me.0) }
        ensures err { OnErr result (Owes self.now [] [] [] seat.old.me.0 seat.new.me.0) }
    {
        let mut held = self.lock.enter(rt, seat);
        let reply = encode_in(
            rt,
            self.codec,
            &mut held.state().core,
            who,
            lender,
            pool,
            pool_seat,
        );
        let made = has_replied(&reply);
        let passage = passage_if(made, held.state().core.core(), no_acquires());
        self.lock.leave(seat, held, passage);
        reply
    }
}
