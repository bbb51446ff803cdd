// Waits for the promise of a flush, with help.
ghost use Rattle.std.specs.Prelude.{◌<◌, [], length};
ghost use Rattle.flush_promise.specs.Promises.{EndsAs};
ghost use Rattle.codec_desk.specs.Clocks.{Clocked};
ghost use Rattle.codec_desk.specs.Desks.{SitAt, Settled};
ghost use Rattle.codec_desk.specs.Each.{IsAt};
ghost use Rattle.codec_desk.specs.Named.{Calls};
ghost use Rattle.codec_desk.specs.Rests.{Looked};
ghost use Rattle.codec_desk.specs.Runs.{EachRunsNone};

use crate::desk::{Desk, Seats};
use crate::items::work_item;
use crate::pause::Patience;
use crate::steps::{look_at_promise, turn_once};
use coder_api::Coder;
use flush_promise::FlushEnd;
use std::alloc::Global;
use std::sync::Wait;
use work_moments::{Clock, Gate};

// One item and one turn of a codec, if others had their time. Answers whether one of them was made.
fn help_if<C: Coder, K: Clock, G: Gate, R: Wait>(
    rt: &R,
    alloc: Global,
    desk: &Desk<C>,
    seats: &mut Seats<C>,
    codec: usize,
    over: bool,
    clock: &mut K,
    gate: &mut G,
) -> bool
    requires sits { SitAt desk.now seats.old }
    requires codec { codec < length desk.now.codecs.items }
    ensures sits { SitAt desk.now seats.new }
    ensures settled { Settled desk.now seats.old seats.new }
    ensures calls { Calls desk.now [] seats.old seats.new }
    ensures runs { EachRunsNone desk.now.codecs.items seats.old.codecs.items
        → EachRunsNone desk.now.codecs.items seats.new.codecs.items }
    ensures timed { Clocked desk.now seats.old seats.new (K.told clock.old) (K.told clock.new) }
{
    if !over {
        return false;
    }
    let worked = work_item(rt, alloc, desk, seats, codec, clock, gate);
    let turned = turn_once(rt, desk, seats, codec);
    worked.or(turned).is_some()
}

/// How the promise of a flush ended, by its entry's place in a codec's history, once a look saw its end. Between looks it rests.
/// Once it saw no entry more for some milliseconds, it works and turns on the codec instead. Each end is at a moment that the
/// clock gave.
pub fn await_helping<C: Coder, K: Clock, G: Gate, R: Wait>(
    rt: &R,
    alloc: Global,
    desk: &Desk<C>,
    seats: &mut Seats<C>,
    codec: usize,
    promise: u64,
    clock: &mut K,
    gate: &mut G,
) -> FlushEnd
    requires sits { SitAt desk.now seats.old }
    requires codec { codec < length desk.now.codecs.items }
    ensures sits { SitAt desk.now seats.new }
    ensures settled { Settled desk.now seats.old seats.new }
    ensures calls { Calls desk.now [] seats.old seats.new }
    ensures runs { EachRunsNone desk.now.codecs.items seats.old.codecs.items
        → EachRunsNone desk.now.codecs.items seats.new.codecs.items }
    ensures ended { IsAt codec (Looked (EndsAs promise result))
        desk.now.codecs.items seats.old.codecs.items seats.new.codecs.items }
    ensures timed { Clocked desk.now seats.old seats.new (K.told clock.old) (K.told clock.new) }
{
    let mut patience = Patience::new();
    for _ in rt.forever() {
        let (entries, state) = look_at_promise(rt, desk, seats, codec, promise);
        if let Some(end) = FlushEnd::of(state) {
            return end;
        }
        let over = patience.is_over(entries);
        let found = help_if(rt, alloc, desk, seats, codec, over, clock, gate);
        patience.rest_unless(rt, found);
    }
    unreachable!()
}
