// Rounds over all codecs of a desk.
ghost use Rattle.std.specs.Prelude.{◌≡◌, ◌⊎◌, true, false, [], None, is_some};
ghost use Rattle.codec_desk.specs.Clocks.{EndsAt, Clocked};
ghost use Rattle.codec_desk.specs.Desks.{SitAt, Settled};
ghost use Rattle.codec_desk.specs.Each.{Each, AtSome};
ghost use Rattle.codec_desk.specs.Named.{Calls};
ghost use Rattle.codec_desk.specs.Rests.{Rested, Served, Stirred, NoItem, NoTask};
ghost use Rattle.codec_desk.specs.Runs.{EachRunsNone};

use crate::desk::{Desk, Seats};
use crate::items::work_item;
use crate::steps::turn_once;
use coder_api::Coder;
use std::alloc::Global;
use std::sync::Wait;
use work_moments::{Clock, Gate};

// Whether something was found, before or now.
fn found_or(found: bool, step: Option<u64>) -> bool
    ensures none { result ≡ false → (found ≡ false) × (step ≡ None) }
    ensures some { result ≡ true → (found ≡ true) ⊎ (is_some step ≡ true) }
{
    found || step.is_some()
}

/// An item of each codec, if one may start, as `work_item` does it. On each codec the seats made an entry, or they looked and no
/// item could start. False where they made no entry on any, and true where they did on one. Each end is at a moment that the
/// clock gave.
pub fn item_round<C: Coder, K: Clock, G: Gate, R: Wait>(
    rt: &R,
    alloc: Global,
    desk: &Desk<C>,
    seats: &mut Seats<C>,
    clock: &mut K,
    gate: &mut G,
) -> bool
    requires { SitAt desk.now seats.old }
    ensures sits { SitAt desk.now seats.new }
    ensures settled { Settled desk.now seats.old seats.new }
    ensures calls { Calls desk.now [] seats.old seats.new }
    ensures runs { EachRunsNone desk.now.codecs.items seats.old.codecs.items
        → EachRunsNone desk.now.codecs.items seats.new.codecs.items }
    ensures served { Each (Served NoItem)
        desk.now.codecs.items seats.old.codecs.items seats.new.codecs.items }
    ensures rested { result ≡ false → Each (Rested NoItem)
        desk.now.codecs.items seats.old.codecs.items seats.new.codecs.items }
    ensures stirred { result ≡ true → AtSome Stirred
        desk.now.codecs.items seats.old.codecs.items seats.new.codecs.items }
    ensures timed { Clocked desk.now seats.old seats.new (K.told clock.old) (K.told clock.new) }
{
    let mut found = false;
    for codec in 0..desk.codecs.len() {
        let worked = work_item(rt, alloc, desk, seats, codec, clock, gate);
        found = found_or(found, worked);
    }
    found
}

/// A turn of each codec, if a task is queued. On each codec the seats made an entry, or they looked and no task was queued. False
/// where they made no entry on any, and true where they did on one. They make no end. It takes no memory.
pub fn turn_round<C: Coder, R: Wait>(rt: &R, desk: &Desk<C>, seats: &mut Seats<C>) -> bool
    requires { SitAt desk.now seats.old }
    ensures sits { SitAt desk.now seats.new }
    ensures settled { Settled desk.now seats.old seats.new }
    ensures calls { Calls desk.now [] seats.old seats.new }
    ensures runs { EachRunsNone desk.now.codecs.items seats.old.codecs.items
        → EachRunsNone desk.now.codecs.items seats.new.codecs.items }
    ensures served { Each (Served NoTask)
        desk.now.codecs.items seats.old.codecs.items seats.new.codecs.items }
    ensures rested { result ≡ false → Each (Rested NoTask)
        desk.now.codecs.items seats.old.codecs.items seats.new.codecs.items }
    ensures stirred { result ≡ true → AtSome Stirred
        desk.now.codecs.items seats.old.codecs.items seats.new.codecs.items }
    ensures ends { Each (EndsAt [])
        desk.now.codecs.items seats.old.codecs.items seats.new.codecs.items }
{
    let mut found = false;
    for codec in 0..desk.codecs.len() {
        let turned = turn_once(rt, desk, seats, codec);
        found = found_or(found, turned);
    }
    found
}
