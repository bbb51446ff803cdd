// Loops of workers and of turners.
ghost use Rattle.std.specs.Prelude.{[]};
ghost use Rattle.codec_desk.specs.Clocks.{EndsAt, Clocked};
ghost use Rattle.codec_desk.specs.Desks.{SitAt, Settled};
ghost use Rattle.codec_desk.specs.Each.{Each};
ghost use Rattle.codec_desk.specs.Named.{Calls};
ghost use Rattle.codec_desk.specs.Rests.{Looked, NoItem, NoTask};
ghost use Rattle.codec_desk.specs.Runs.{EachRunsNone};

use crate::desk::{Desk, Seats};
use crate::pause::rest_unless;
use crate::rounds::{item_round, turn_round};
use coder_api::Coder;
use std::alloc::Global;
use std::sync::Wait;
use std::sync::atomic::{AtomicU64, Ordering};
use work_moments::{Clock, Gate};

/// Works on all codecs until a whole round finds no item that may start, where that round began with no caller left. `callers`
/// counts the callers that still go on; no clause rests on it. On each codec the seats then looked, and no item could start. Each
/// end is at a moment that the clock gave.
pub fn item_loop<C: Coder, K: Clock, G: Gate, R: Wait>(
    rt: &R,
    alloc: Global,
    desk: &Desk<C>,
    seats: &mut Seats<C>,
    callers: &AtomicU64,
    clock: &mut K,
    gate: &mut G,
)
    requires { SitAt desk.now seats.old }
    ensures sits { SitAt desk.now seats.new }
    ensures settled { Settled desk.now seats.old seats.new }
    ensures calls { Calls desk.now [] seats.old seats.new }
    ensures runs { EachRunsNone desk.now.codecs.items seats.old.codecs.items
        → EachRunsNone desk.now.codecs.items seats.new.codecs.items }
    ensures looked { Each (Looked NoItem)
        desk.now.codecs.items seats.old.codecs.items seats.new.codecs.items }
    ensures timed { Clocked desk.now seats.old seats.new (K.told clock.old) (K.told clock.new) }
{
    let mut rested = 0;
    for _ in rt.forever() {
        let over = callers.load(Ordering::SeqCst) == 0;
        let found = item_round(rt, alloc, desk, seats, clock, gate);
        if over && !found {
            return;
        }
        rested = rest_unless(rt, found, rested);
    }
    unreachable!()
}

/// Turns all codecs until a whole round finds no task, where that round began with no caller left. `callers` counts the
/// callers that still go on; no clause rests on it. On each codec the seats then looked, and no task was queued. They make no
/// end. It takes no memory.
pub fn turn_loop<C: Coder, R: Wait>(
    rt: &R,
    desk: &Desk<C>,
    seats: &mut Seats<C>,
    callers: &AtomicU64,
)
    requires { SitAt desk.now seats.old }
    ensures sits { SitAt desk.now seats.new }
    ensures settled { Settled desk.now seats.old seats.new }
    ensures calls { Calls desk.now [] seats.old seats.new }
    ensures runs { EachRunsNone desk.now.codecs.items seats.old.codecs.items
        → EachRunsNone desk.now.codecs.items seats.new.codecs.items }
    ensures looked { Each (Looked NoTask)
        desk.now.codecs.items seats.old.codecs.items seats.new.codecs.items }
    ensures ends { Each (EndsAt [])
        desk.now.codecs.items seats.old.codecs.items seats.new.codecs.items }
{
    let mut rested = 0;
    for _ in rt.forever() {
        let over = callers.load(Ordering::SeqCst) == 0;
        let turned = turn_round(rt, desk, seats);
        if over && !turned {
            return;
        }
        rested = rest_unless(rt, turned, rested);
    }
    unreachable!()
}
