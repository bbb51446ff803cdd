// Decodes of a shared codec through the seats of one thread.
ghost use Rattle.std.specs.Prelude.{◌≡◌, ◌≤◌, ◌+◌, ◌^◌, IfOk};
ghost use Rattle.shared_codec.specs.Calls.{MayAlways};
ghost use Rattle.shared_speed.specs.Seating.{IsDesk, AreLive, AreKept};

use crate::plain::{WHO, chunk, coder, pcm};
use codec_model::{Call, Kind};
use sample_coder::SampleCoder;
use shared_codec::{CodecSeat, SharedCodec};
use shared_pool::{PoolSeat, SharedPool};
use shared_slots::{SlotRegistry, SlotSeat};
use std::alloc::Global;
use std::sync::Wait;
use wc_base::NoMemory;
use work_moments::{OpenGate, StillClock};

/// A codec with its registry and its pool.
pub struct Desk {
    pub codec: SharedCodec<SampleCoder>,
    pub slots: SlotRegistry<SampleCoder>,
    pub pool: SharedPool,
}

/// A thread's seats at them.
#[derive(Drop)]
pub struct Seats {
    pub codec: CodecSeat<SampleCoder>,
    pub slots: SlotSeat<SampleCoder>,
    pub pool: PoolSeat,
}

// A call of the codec.
fn call<R: Wait>(rt: &R, desk: &Desk, seats: &mut Seats, call: Call)
    requires live { AreLive desk.now seats.old }
    requires may { MayAlways call }
    ensures { AreKept desk.now seats.old seats.new }
{
    let _ = desk.codec.call(rt, &mut seats.codec, WHO, call);
}

// An item of the codec at a moment.
fn work<R: Wait>(rt: &R, alloc: Global, desk: &Desk, seats: &mut Seats, moment: u64)
    requires desk { IsDesk desk.now }
    requires live { AreLive desk.now seats.old }
    ensures { AreKept desk.now seats.old seats.new }
{
    let _ = desk.codec.work_once(
        rt,
        alloc,
        &mut seats.codec,
        &desk.slots,
        &mut seats.slots,
        &desk.pool,
        &mut seats.pool,
        &mut StillClock { moment },
        &mut OpenGate,
    );
}

// A turn of the codec.
fn turn<R: Wait>(rt: &R, desk: &Desk, seats: &mut Seats)
    requires live { AreLive desk.now seats.old }
    ensures { AreKept desk.now seats.old seats.new }
{
    let _ = desk.codec.turn(rt, &mut seats.codec);
}

/// So many decodes, each with an item and two turns.
pub fn decode_many<R: Wait>(
    rt: &R,
    alloc: Global,
    desk: &Desk,
    mut seats: Seats,
    count: u64,
) -> Seats
    requires desk { IsDesk desk.now }
    requires live { AreLive desk.now seats }
    ensures { AreKept desk.now seats result }
{
    let Ok(chunk) = chunk(alloc) else {
        return seats;
    };
    for moment in 0..count {
        if let Ok(chunk) = chunk.copy() {
            call(rt, desk, &mut seats, Call::Decode(chunk));
        }
        work(rt, alloc, desk, &mut seats, moment);
        turn(rt, desk, &mut seats);
        turn(rt, desk, &mut seats);
    }
    seats
}

/// A configure, with its item and its turns.
pub fn configure<R: Wait>(rt: &R, alloc: Global, desk: &Desk, mut seats: Seats) -> Seats
    requires desk { IsDesk desk.now }
    requires live { AreLive desk.now seats }
    ensures { AreKept desk.now seats result }
{
    if let Ok(config) = pcm(alloc) {
        call(rt, desk, &mut seats, Call::Configure(config));
    }
    work(rt, alloc, desk, &mut seats, 0);
    turn(rt, desk, &mut seats);
    turn(rt, desk, &mut seats);
    seats
}

fn coders(alloc: Global) -> Result<Vec<SampleCoder>, NoMemory> {
    let mut coders = Vec::new(alloc);
    coders.reserve(1)?;
    coders.push_reserved(coder());
    Ok(coders)
}

/// A codec that nothing was done with, and its first seats.
pub fn open(alloc: Global) -> Result<(Desk, Seats), NoMemory>
    ensures desk { IfOk result (λ r. IsDesk r.0) }
    ensures live { IfOk result (λ r. AreLive r.0 r.1) }
    ensures parts { IfOk result (λ r. r.1.codec.me.0.parts ≡ 2 ^ 32) }
{
    let coders = coders(alloc)?;
    let (pool, pool_seat) = SharedPool::open(alloc)?;
    match SlotRegistry::open(alloc, coders) {
        Err(NoMemory) => {
            let _ = pool.finish(pool_seat);
            Err(NoMemory)
        }
        Ok((slots, slot_seat)) => {
            match SharedCodec::open(alloc, 0, Kind::AudioDecoder, 4, 0, &pool, &slots) {
                Err(NoMemory) => {
                    let _ = slots.finish(slot_seat);
                    let _ = pool.finish(pool_seat);
                    Err(NoMemory)
                }
                Ok((codec, seat)) => Ok((
                    Desk { codec, slots, pool },
                    Seats {
                        codec: seat,
                        slots: slot_seat,
                        pool: pool_seat,
                    },
                )),
            }
        }
    }
}

/// How many entries there are, once all seats are joined.
pub fn finish(desk: Desk, seats: Seats) -> u64
    requires live { AreLive desk seats }
    requires parts { seats.codec.me.0.parts ≡ 2 ^ 32 }
{
    let Desk { codec, slots, pool } = desk;
    let Seats {
        codec: one,
        slots: two,
        pool: three,
    } = seats;
    let core = codec.finish(one);
    let _ = slots.finish(two);
    let _ = pool.finish(three);
    let (entries, _, _) = core.core().look();
    entries
}

/// One part of each seat.
pub fn split(desk: &Desk, seats: &mut Seats) -> Seats
    requires live { AreLive desk.now seats.old }
    requires parts { 2 ≤ seats.old.codec.me.0.parts }
    ensures live { AreLive desk.now seats.new }
    ensures left { seats.new.codec.me.0.parts + 1 ≡ seats.old.codec.me.0.parts }
    ensures new { AreLive desk.now result }
    ensures one { result.codec.me.0.parts ≡ 1 }
{
    Seats {
        codec: desk.codec.split(&mut seats.codec),
        slots: desk.slots.split(&mut seats.slots),
        pool: desk.pool.split(&mut seats.pool),
    }
}

/// Joins seats, pair by pair.
pub fn join(desk: &Desk, seats: &mut Seats, other: Seats)
    requires live { AreLive desk.now seats.old }
    requires other { AreLive desk.now other }
    ensures live { AreLive desk.now seats.new }
    ensures parts { seats.new.codec.me.0.parts
        ≡ seats.old.codec.me.0.parts + other.codec.me.0.parts }
{
    let Seats {
        codec: one,
        slots: two,
        pool: three,
    } = other;
    desk.codec.join(&mut seats.codec, one);
    desk.slots.join(&mut seats.slots, two);
    desk.pool.join(&mut seats.pool, three);
}
