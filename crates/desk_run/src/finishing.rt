// The end of a desk.
ghost use Rattle.std.specs.Prelude.{◌≡◌, ◌≤◌, ◌^◌, [], length, vec_capacity};
ghost use Rattle.codec_desk.specs.Desks.{SitAt};
ghost use Rattle.desk_threads.specs.Accounts.{AreAll};
ghost use Rattle.desk_threads.specs.Parts.{HaveParts};
ghost use Rattle.desk_run.specs.Finished.{IsFinished};

use codec_desk::{Desk, Seats};
use codec_media::HoldingCore;
use coder_api::Coder;
use slot_registry::Slots;
use wc_pool::Pool;

/// What a desk leaves: its codecs in order, the registry of their boxes, and the pool of their
/// media.
#[derive(Drop)]
pub struct Finished<C: Coder> {
    pub codecs: Vec<HoldingCore<C>>,
    pub slots: Slots<C>,
    pub pool: Pool,
}

/// Closes all locks of a desk, once every other seat was joined to these: each has all 2^32 parts.
/// Each codec, the registry and the pool then has the history that its seat has seen. `cores` is
/// empty, and has room for each codec. It takes no memory.
pub fn finish_desk<C: Coder>(
    desk: Desk<C>,
    seats: Seats<C>,
    mut cores: Vec<HoldingCore<C>>,
) -> Finished<C>
    requires sits { SitAt desk seats }
    requires parts { HaveParts (2 ^ 32) seats }
    requires empty { cores.items ≡ [] }
    requires room { length desk.codecs.items ≤ vec_capacity cores }
    ensures finished { IsFinished desk seats result }
    ensures all { AreAll seats }
{
    let Desk {
        mut codecs,
        pool,
        slots,
    } = desk;
    let Seats {
        codecs: mut codec_seats,
        pool: pool_seat,
        slots: slot_seat,
    } = seats;
    while let Some(codec) = codecs.pop() {
        let Some(seat) = codec_seats.pop() else {
            unreachable!()
        };
        cores.push_reserved(codec.finish(seat));
    }
    codecs.destroy_empty();
    cores.reverse();
    Finished {
        codecs: cores,
        slots: slots.finish(slot_seat),
        pool: pool.finish(pool_seat),
    }
}
