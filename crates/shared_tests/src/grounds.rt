// A shared codec is told where it is at work.
ghost use Rattle.seat_lock.specs.Seats.{IsIdleAt};
ghost use Rattle.shared_tests.specs.Resting.{Rests};

use crate::flushes::open_codec;
use codec_model::{Call, Kind};
use sample_coder::SampleCoder;
use shared_codec::{CodecSeat, SharedCodec};
use std::alloc::Global;
use std::sync::Wait;
use wc_base::{Ground, NoMemory, Who};

/// The place of a ground's entry, and what two looks see then.
#[derive(Debug, PartialEq, Drop)]
pub struct Told {
    pub place: Option<u64>,
    pub at: Ground,
    pub holding: (Option<u64>, Ground, Kind),
}

/// A ground through a seat, and looks through it.
pub fn tell_and_look<R: Wait>(
    rt: &R,
    codec: &SharedCodec<SampleCoder>,
    seat: &mut CodecSeat<SampleCoder>,
    to: Ground,
) -> Told
    requires { IsIdleAt codec.now.id seat.old }
    ensures { Rests seat.old seat.new }
{
    let who = Who { caller: 0, step: 0 };
    let place = match codec.call(rt, seat, who, Call::Ground(to)) {
        Ok(reply) => Some(reply.place),
        Err(NoMemory) => None,
    };
    let at = codec.ground(rt, seat);
    let holding = codec.holding(rt, seat);
    Told { place, at, holding }
}

/// The same to a codec of its own, and how many entries were made.
pub fn tell_alone<R: Wait>(rt: &R, alloc: Global, to: Ground) -> Result<(Told, u64), NoMemory> {
    let (codec, mut seat) = open_codec(alloc, 1)?;
    let told = tell_and_look(rt, &codec, &mut seat, to);
    let core = codec.finish(seat);
    Ok((told, core.core().look().0))
}
