// All that is left to do on a desk.
ghost use Rattle.std.specs.Prelude.{◌≡◌, [], false};
ghost use Rattle.codec_desk.specs.Clocks.{Clocked};
ghost use Rattle.codec_desk.specs.Desks.{SitAt, Settled};
ghost use Rattle.codec_desk.specs.Named.{Calls};
ghost use Rattle.codec_desk.specs.Runs.{EachRunsNone};
ghost use Rattle.desk_threads.specs.Rested.{CameToRest};

use codec_desk::{Clock, Desk, Gate, Seats, item_round, turn_round};
use coder_api::Coder;
use std::alloc::Global;
use std::sync::Wait;

// Whether a round found something.
fn either(worked: bool, turned: bool) -> bool
    ensures { result ≡ false → (worked ≡ false) × (turned ≡ false) }
{
    worked || turned
}

/// Rounds of work and of turns over all codecs, until one of each finds nothing. Once no other thread has a seat, all is done.
/// Each end is at a moment that the clock gave.
pub fn settle_desk<C: Coder, K: Clock, G: Gate, R: Wait>(
    rt: &R,
    alloc: Global,
    desk: &Desk<C>,
    seats: &mut Seats<C>,
    clock: &mut K,
    gate: &mut G,
)
    requires { SitAt desk.now seats.old }
    ensures sits { SitAt desk.now seats.new }
    ensures settled { Settled desk.now seats.old seats.new }
    ensures calls { Calls desk.now [] seats.old seats.new }
    ensures runs { EachRunsNone desk.now.codecs.items seats.old.codecs.items
        → EachRunsNone desk.now.codecs.items seats.new.codecs.items }
    ensures rested { CameToRest desk.now seats.old seats.new }
    ensures timed { Clocked desk.now seats.old seats.new (K.told clock.old) (K.told clock.new) }
{
    for _ in rt.forever() {
        let worked = item_round(rt, alloc, desk, seats, clock, gate);
        let turned = turn_round(rt, desk, seats);
        if !either(worked, turned) {
            return;
        }
    }
    unreachable!()
}
