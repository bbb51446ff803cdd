// Room for a box: a codec that holds a coder is reclaimed.
ghost use Rattle.std.specs.Prelude.{ℕ, ◌≡◌, ◌+◌, ◌≤◌, ◌<◌, ◌++◌, [], List, Option, length, vec_capacity};
ghost use Rattle.work_moments.specs.Moments.{Telling};
ghost use Rattle.codec_desk.specs.Desks.{SitAt};
ghost use Rattle.codec_desk.specs.Items.{Meanwhile, SawHolders, holder_if};
ghost use Rattle.codec_desk.specs.Rooms.{RoomTells};

use crate::desk::{Desk, Seats};
use crate::items::{look_at_holding, reclaim_codec};
use codec_model::{Kind, is_decoder};
use coder_api::Coder;
use reclaimer::{Holder, pick};
use std::alloc::Global;
use std::sync::Wait;
use wc_base::Ground;
use work_moments::Clock;

/// What was done so that a box may be free.
#[derive(Clone, Copy, Debug, PartialEq, Eq)]
pub(crate) enum Room {
    /// The codec with this number was picked, and its reclaim was tried.
    Picked(u32),
    /// No codec could be picked.
    Unpicked,
    /// Memory was wanted, and nothing was done.
    NoMemory,
}

// One more holder, if the codec with this number holds a coder by what was seen of it.
fn add_holder(holders: &mut Vec<Holder>, codec: u32, seen: (Option<u64>, Ground, Kind))
    requires { length holders.old.items + 1 ≤ vec_capacity holders.old }
    ensures items { holders.new.items
        ≡ holders.old.items ++ holder_if codec seen.0 seen.1 seen.2 }
    ensures room { vec_capacity holders.new ≡ vec_capacity holders.old }
{
    let (progress, ground, kind) = seen;
    match progress {
        None => {}
        Some(progress) => holders.push_reserved(Holder {
            codec,
            progress,
            decoder: is_decoder(kind),
            ground,
        }),
    }
}

// The codecs that hold a coder, by a look at each, in order.
fn look_at_holders<C: Coder, R: Wait>(
    rt: &R,
    desk: &Desk<C>,
    seats: &mut Seats<C>,
    holders: &mut Vec<Holder>,
)
    requires sits { SitAt desk.now seats.old }
    requires empty { holders.old.items ≡ [] }
    requires room { length desk.now.codecs.items ≤ vec_capacity holders.old }
    ensures saw { SawHolders desk.now.codecs.items
        seats.old.codecs.items seats.new.codecs.items holders.new.items }
    ensures meanwhile { (t : Telling)
        → Meanwhile desk.now t t seats.old seats.new }
{
    for codec in 0..desk.codecs.len() {
        let seen = look_at_holding(rt, desk, seats, codec);
        add_holder(holders, desk.codecs[codec].number(), seen);
    }
}

/// Looks at each codec, in order, and reads the clock; where a codec is picked by these, its reclaim is tried at that moment. A
/// reclaim that is made gives back the codec's box. Where memory is wanted nothing is done.
pub(crate) fn make_room<C: Coder, K: Clock, R: Wait>(
    rt: &R,
    alloc: Global,
    desk: &Desk<C>,
    seats: &mut Seats<C>,
    clock: &mut K,
) -> Room
    requires { SitAt desk.now seats.old }
    ensures meanwhile { Meanwhile desk.now (K.told clock.old) (K.told clock.new)
        seats.old seats.new }
    ensures tells { RoomTells desk.now result (K.told clock.old) (K.told clock.new)
        seats.old seats.new }
{
    let Ok(mut holders) = Vec::with_capacity(alloc, desk.codecs.len()) else {
        return Room::NoMemory;
    };
    look_at_holders(rt, desk, seats, &mut holders);
    let now = clock.now();
    let Some(codec) = pick(holders.as_slice(), now) else {
        return Room::Unpicked;
    };
    let _ = reclaim_codec(rt, desk, seats, codec as usize, now);
    Room::Picked(codec)
}
