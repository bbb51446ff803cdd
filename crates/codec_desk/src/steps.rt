// Steps of work on one codec of a desk.
ghost use Rattle.std.specs.Prelude.{ℕ, ◌≡◌, ◌<◌, [], length};
ghost use Rattle.shared_codec.specs.Calls.{MayAlways};
ghost use Rattle.shared_codec.specs.Looks.{PromiseTells};
ghost use Rattle.shared_codec.specs.Names.{answered_calls};
ghost use Rattle.shared_codec.specs.Settled.{AnswerTells, TurnOnceTells};
ghost use Rattle.codec_desk.specs.Desks.{SitAt, Settled};
ghost use Rattle.codec_desk.specs.Each.{OneAt};
ghost use Rattle.codec_desk.specs.Named.{Calls};
ghost use Rattle.codec_desk.specs.Runs.{EachRunsNone};

use crate::desk::{Desk, Seats};
use codec_model::{Call, PromiseState};
use coder_api::Coder;
use shared_codec::{Answer, dues_add_up};
use std::sync::Wait;
use wc_base::{NoMemory, Who};

/// A call of a caller that can be made in each state, as `SharedCodec::call` makes it; what it lets go has gone back.
pub fn call_once<C: Coder, R: Wait>(
    rt: &R,
    desk: &Desk<C>,
    seats: &mut Seats<C>,
    codec: usize,
    who: Who,
    call: Call,
) -> Result<Answer, NoMemory>
    requires sits { SitAt desk.now seats.old }
    requires codec { codec < length desk.now.codecs.items }
    requires may { MayAlways call }
    ensures sits { SitAt desk.now seats.new }
    ensures called { OneAt codec (λ s a b. AnswerTells s who call result a b)
        desk.now.codecs.items seats.old.codecs.items seats.new.codecs.items }
    ensures settled { Settled desk.now seats.old seats.new }
    ensures calls { Calls desk.now (answered_calls codec who call result) seats.old seats.new }
    ensures runs { EachRunsNone desk.now.codecs.items seats.old.codecs.items
        → EachRunsNone desk.now.codecs.items seats.new.codecs.items }
{
    dues_add_up();
    desk.codecs[codec].call_once(
        rt,
        &mut seats.codecs[codec],
        who,
        call,
        &desk.slots,
        &mut seats.slots,
        &desk.pool,
        &mut seats.pool,
    )
}

/// One turn of a codec, and what it lets go. None exactly where no event task is queued. Answers the place of its entry. It
/// takes no memory.
pub fn turn_once<C: Coder, R: Wait>(
    rt: &R,
    desk: &Desk<C>,
    seats: &mut Seats<C>,
    codec: usize,
) -> Option<u64>
    requires sits { SitAt desk.now seats.old }
    requires codec { codec < length desk.now.codecs.items }
    ensures sits { SitAt desk.now seats.new }
    ensures turned { OneAt codec (λ s a b. TurnOnceTells s result a b)
        desk.now.codecs.items seats.old.codecs.items seats.new.codecs.items }
    ensures settled { Settled desk.now seats.old seats.new }
    ensures calls { Calls desk.now [] seats.old seats.new }
    ensures runs { EachRunsNone desk.now.codecs.items seats.old.codecs.items
        → EachRunsNone desk.now.codecs.items seats.new.codecs.items }
{
    dues_add_up();
    desk.codecs[codec].turn_once(
        rt,
        &mut seats.codecs[codec],
        &desk.slots,
        &mut seats.slots,
        &desk.pool,
        &mut seats.pool,
    )
}

/// How many entries a codec's history has, and how the promise of a flush stands, by its entry's place there. It is one look. It
/// takes no memory.
pub fn look_at_promise<C: Coder, R: Wait>(
    rt: &R,
    desk: &Desk<C>,
    seats: &mut Seats<C>,
    codec: usize,
    promise: u64,
) -> (u64, PromiseState)
    requires sits { SitAt desk.now seats.old }
    requires codec { codec < length desk.now.codecs.items }
    ensures sits { SitAt desk.now seats.new }
    ensures looked { OneAt codec (λ s a b. PromiseTells s promise result a b)
        desk.now.codecs.items seats.old.codecs.items seats.new.codecs.items }
    ensures settled { Settled desk.now seats.old seats.new }
    ensures calls { Calls desk.now [] seats.old seats.new }
    ensures runs { EachRunsNone desk.now.codecs.items seats.old.codecs.items
        → EachRunsNone desk.now.codecs.items seats.new.codecs.items }
{
    dues_add_up();
    desk.codecs[codec].look_at_promise(rt, &mut seats.codecs[codec], promise)
}
