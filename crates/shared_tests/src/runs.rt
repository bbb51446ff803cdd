// Runs of four threads, from the opening of all locks to their end.
ghost use Rattle.seat_lock.specs.Seats.{IsIdleAt, HasView, first_view};
ghost use Rattle.shared_codec.specs.Keeps.{Keeps};
ghost use Rattle.shared_pool.specs.Refs.{IsPoolRef};
ghost use Rattle.shared_pool.specs.Steps as pools;
ghost use Rattle.shared_slots.specs.Steps.{IsFree};
ghost use Rattle.shared_tests.specs.Resting.{IsDesk, IsReady, AreLive, AreKept};
ghost use Rattle.std.specs.Prelude.{◌≡◌, ◌≤◌, ◌+◌, ◌^◌, IfOk};

use crate::desk::{MONO, configure, reset, work};
use crate::parts::{Part, Seats};
use crate::plays::play_two;
use bytes::Bytes;
use codec_media::HoldingCore;
use codec_model::{Kind, MediaShape};
use sample_coder::{Coding, SampleCoder};
use sample_conversion::SampleSize;
use shared_codec::{CodecSeat, OpenMedium, SharedCodec};
use shared_pool::{PoolSeat, SharedPool};
use shared_slots::{SlotRegistry, SlotSeat};
use slot_registry::Slots;
use std::alloc::Global;
use std::sync::{Barrier, Wait};
use std::thread;
use std::thread::Threads;
use wc_base::{By, NoMemory, Who};
use wc_config::Role;
use wc_pool::{MediaRef, Pool};

/// What a run left.
#[derive(Drop)]
pub struct Left {
    pub first: HoldingCore<SampleCoder>,
    pub second: HoldingCore<SampleCoder>,
    pub slots: Slots<SampleCoder>,
    pub pool: Pool,
}

// One part of each seat.
fn split_seats(
    first: &SharedCodec<SampleCoder>,
    second: &SharedCodec<SampleCoder>,
    slots: &SlotRegistry<SampleCoder>,
    pool: &SharedPool,
    all: &mut Seats,
) -> Seats
    requires live { AreLive first.now second.now slots.now pool.now all.old }
    requires parts { 2 ≤ all.old.pool.me.0.parts }
    ensures live { AreLive first.now second.now slots.now pool.now all.new }
    ensures left { all.new.pool.me.0.parts + 1 ≡ all.old.pool.me.0.parts }
    ensures new { AreLive first.now second.now slots.now pool.now result }
    ensures one { result.pool.me.0.parts ≡ 1 }
{
    Seats {
        first: first.split(&mut all.first),
        second: second.split(&mut all.second),
        slots: slots.split(&mut all.slots),
        pool: pool.split(&mut all.pool),
    }
}

// Joins seats, pair by pair.
fn join_seats(
    first: &SharedCodec<SampleCoder>,
    second: &SharedCodec<SampleCoder>,
    slots: &SlotRegistry<SampleCoder>,
    pool: &SharedPool,
    all: &mut Seats,
    other: Seats,
)
    requires live { AreLive first.now second.now slots.now pool.now all.old }
    requires other { AreLive first.now second.now slots.now pool.now other }
    ensures live { AreLive first.now second.now slots.now pool.now all.new }
    ensures parts { all.new.pool.me.0.parts
        ≡ all.old.pool.me.0.parts + other.pool.me.0.parts }
{
    let Seats {
        first: one,
        second: two,
        slots: three,
        pool: four,
    } = other;
    first.join(&mut all.first, one);
    second.join(&mut all.second, two);
    slots.join(&mut all.slots, three);
    pool.join(&mut all.pool, four);
}

// Four callers at once.
fn play_four<R: Threads + Wait + Sync>(
    rt: &R,
    alloc: Global,
    first: &SharedCodec<SampleCoder>,
    second: &SharedCodec<SampleCoder>,
    slots: &SlotRegistry<SampleCoder>,
    pool: &SharedPool,
    front: (Part, Part),
    back: (Part, Part),
    steps: u32,
) -> ((Seats, Seats), (Seats, Seats))
    requires a { IsReady first.now second.now slots.now pool.now front.0 }
    requires b { IsReady first.now second.now slots.now pool.now front.1 }
    requires c { IsReady first.now second.now slots.now pool.now back.0 }
    requires d { IsReady first.now second.now slots.now pool.now back.1 }
    ensures a { AreKept first.now second.now slots.now pool.now front.0.seats result.0.0 }
    ensures b { AreKept first.now second.now slots.now pool.now front.1.seats result.0.1 }
    ensures c { AreKept first.now second.now slots.now pool.now back.0.seats result.1.0 }
    ensures d { AreKept first.now second.now slots.now pool.now back.1.seats result.1.1 }
{
    let barrier = Barrier::new(4);
    let start = &barrier;
    thread::join(
        rt,
        move ||
            requires a { IsReady first.now second.now slots.now pool.now front.0 }
            requires b { IsReady first.now second.now slots.now pool.now front.1 }
            ensures a { AreKept first.entry.now second.entry.now slots.entry.now
                pool.entry.now front.0.seats result.0 }
            ensures b { AreKept first.entry.now second.entry.now slots.entry.now
                pool.entry.now front.1.seats result.1 }
        {
            play_two(
                rt, alloc, start, first, second, slots, pool, front.0, front.1, steps,
            )
        },
        move ||
            requires a { IsReady first.now second.now slots.now pool.now back.0 }
            requires b { IsReady first.now second.now slots.now pool.now back.1 }
            ensures a { AreKept first.entry.now second.entry.now slots.entry.now
                pool.entry.now back.0.seats result.0 }
            ensures b { AreKept first.entry.now second.entry.now slots.entry.now
                pool.entry.now back.1.seats result.1 }
        {
            play_two(
                rt, alloc, start, first, second, slots, pool, back.0, back.1, steps,
            )
        },
    )
}

// A reference of one frame, by this caller.
fn make_medium<R: Wait>(
    rt: &R,
    alloc: Global,
    pool: &SharedPool,
    seat: &mut PoolSeat,
    caller: u32,
) -> Result<MediaRef, NoMemory>
    requires { pools.IsFree pool.now seat.old }
    ensures kept { Keeps pool.now seat.old seat.new }
    ensures free { pools.IsFree pool.now seat.new }
    ensures of { IfOk result (IsPoolRef pool.now) }
{
    let Ok(bytes) = Bytes::copy_from_slice(alloc, &[1, 0]) else {
        return Err(NoMemory);
    };
    pool.make(rt, seat, By::Caller(Who { caller, step: 0 }), bytes)
}

// A caller with one part of each seat.
fn part_of(
    first: &SharedCodec<SampleCoder>,
    second: &SharedCodec<SampleCoder>,
    slots: &SlotRegistry<SampleCoder>,
    pool: &SharedPool,
    all: &mut Seats,
    caller: u32,
    reference: MediaRef,
) -> Part
    requires desk { IsDesk first.now second.now slots.now pool.now }
    requires live { AreLive first.now second.now slots.now pool.now all.old }
    requires parts { 2 ≤ all.old.pool.me.0.parts }
    requires reference { IsPoolRef pool.now reference }
    ensures live { AreLive first.now second.now slots.now pool.now all.new }
    ensures left { all.new.pool.me.0.parts + 1 ≡ all.old.pool.me.0.parts }
    ensures ready { IsReady first.now second.now slots.now pool.now result }
    ensures one { result.seats.pool.me.0.parts ≡ 1 }
{
    let seats = split_seats(first, second, slots, pool, all);
    Part {
        caller,
        seats,
        medium: OpenMedium {
            shape: MediaShape::Sound(MONO),
            reference,
        },
    }
}

// Four callers, each with a seat at each lock, and then all that is left to do.
fn run_callers<R: Threads + Wait + Sync>(
    rt: &R,
    alloc: Global,
    first: &SharedCodec<SampleCoder>,
    second: &SharedCodec<SampleCoder>,
    slots: &SlotRegistry<SampleCoder>,
    pool: &SharedPool,
    all: &mut Seats,
    media: ((MediaRef, MediaRef), (MediaRef, MediaRef)),
    steps: u32,
)
    requires desk { IsDesk first.now second.now slots.now pool.now }
    requires live { AreLive first.now second.now slots.now pool.now all.old }
    requires parts { 5 ≤ all.old.pool.me.0.parts }
    requires a { IsPoolRef pool.now media.0.0 }
    requires b { IsPoolRef pool.now media.0.1 }
    requires c { IsPoolRef pool.now media.1.0 }
    requires d { IsPoolRef pool.now media.1.1 }
    ensures live { AreLive first.now second.now slots.now pool.now all.new }
    ensures parts { all.new.pool.me.0.parts ≡ all.old.pool.me.0.parts }
{
    let ((a, b), (c, d)) = media;
    let a = part_of(first, second, slots, pool, all, 1, a);
    let b = part_of(first, second, slots, pool, all, 2, b);
    let c = part_of(first, second, slots, pool, all, 3, c);
    let d = part_of(first, second, slots, pool, all, 4, d);
    let ((a, b), (c, d)) = play_four(rt, alloc, first, second, slots, pool, (a, b), (c, d), steps);
    join_seats(first, second, slots, pool, all, a);
    join_seats(first, second, slots, pool, all, b);
    join_seats(first, second, slots, pool, all, c);
    join_seats(first, second, slots, pool, all, d);
}

// All that is left to do on the two codecs, and then a reset of each, after which nothing is held.
fn drain<R: Wait>(
    rt: &R,
    alloc: Global,
    codec: &SharedCodec<SampleCoder>,
    seat: &mut CodecSeat<SampleCoder>,
    slots: &SlotRegistry<SampleCoder>,
    slot_seat: &mut SlotSeat<SampleCoder>,
    pool: &SharedPool,
    pool_seat: &mut PoolSeat,
)
    requires seat { IsIdleAt codec.now.id seat.old }
    requires slots { slots.now.id ≡ codec.now.slots }
    requires pool { pool.now ≡ codec.now.pool }
    requires slot_seat { IsFree slots.now.id slot_seat.old }
    requires pool_seat { pools.IsFree pool.now pool_seat.old }
    ensures kept { Keeps codec.now.id seat.old seat.new }
    ensures kept_slots { Keeps slots.now.id slot_seat.old slot_seat.new }
    ensures free_slots { IsFree slots.now.id slot_seat.new }
    ensures kept_pool { Keeps pool.now pool_seat.old pool_seat.new }
    ensures free_pool { pools.IsFree pool.now pool_seat.new }
{
    for _ in 0..4000 {
        if !work(rt, alloc, codec, seat, slots, slot_seat, pool, pool_seat) {
            break;
        }
    }
    let who = Who { caller: 0, step: 1 };
    reset(rt, codec, seat, slots, slot_seat, pool, pool_seat, who);
}

// Boxes for both codecs.
fn coders(alloc: Global) -> Result<Vec<SampleCoder>, NoMemory> {
    let mut coders = Vec::new(alloc);
    coders.reserve(2)?;
    coders.push_reserved(SampleCoder::new(Role::Encode, Coding::Pcm(SampleSize::Two)));
    coders.push_reserved(SampleCoder::new(Role::Encode, Coding::Pcm(SampleSize::Two)));
    Ok(coders)
}

// Two codecs, configured, with four callers at once; whether there was memory for their references.
fn run_codecs<R: Threads + Wait + Sync>(
    rt: &R,
    alloc: Global,
    first: &SharedCodec<SampleCoder>,
    second: &SharedCodec<SampleCoder>,
    slots: &SlotRegistry<SampleCoder>,
    pool: &SharedPool,
    all: &mut Seats,
    steps: u32,
) -> Result<(), NoMemory>
    requires desk { IsDesk first.now second.now slots.now pool.now }
    requires live { AreLive first.now second.now slots.now pool.now all.old }
    requires parts { 5 ≤ all.old.pool.me.0.parts }
    ensures live { AreLive first.now second.now slots.now pool.now all.new }
    ensures parts { all.new.pool.me.0.parts ≡ all.old.pool.me.0.parts }
{
    let a = make_medium(rt, alloc, pool, &mut all.pool, 1)?;
    let b = make_medium(rt, alloc, pool, &mut all.pool, 2)?;
    let c = make_medium(rt, alloc, pool, &mut all.pool, 3)?;
    let d = make_medium(rt, alloc, pool, &mut all.pool, 4)?;
    let who = Who { caller: 0, step: 0 };
    configure(rt, alloc, first, &mut all.first, who);
    configure(rt, alloc, second, &mut all.second, who);
    let media = ((a, b), (c, d));
    run_callers(rt, alloc, first, second, slots, pool, all, media, steps);
    drain(
        rt,
        alloc,
        first,
        &mut all.first,
        slots,
        &mut all.slots,
        pool,
        &mut all.pool,
    );
    drain(
        rt,
        alloc,
        second,
        &mut all.second,
        slots,
        &mut all.slots,
        pool,
        &mut all.pool,
    );
    Ok(())
}

// The same, from the opening of the two codecs to their end.
fn run_with<R: Threads + Wait + Sync>(
    rt: &R,
    alloc: Global,
    slots: SlotRegistry<SampleCoder>,
    slot_seat: SlotSeat<SampleCoder>,
    pool: SharedPool,
    pool_seat: PoolSeat,
    steps: u32,
) -> Result<Left, NoMemory>
    requires slots { (slot_seat.table_id ≡ slots.id) × HasView first_view slot_seat }
    requires pool { (pool_seat.table_id ≡ pool) × HasView first_view pool_seat }
{
    let kind = Kind::AudioEncoder;
    match SharedCodec::open(alloc, 0, kind, 2, 4000, &pool, &slots) {
        Err(NoMemory) => {
            let _ = slots.finish(slot_seat);
            let _ = pool.finish(pool_seat);
            Err(NoMemory)
        }
        Ok((first, one)) => match SharedCodec::open(alloc, 1, kind, 2, 4000, &pool, &slots) {
            Err(NoMemory) => {
                let _ = first.finish(one);
                let _ = slots.finish(slot_seat);
                let _ = pool.finish(pool_seat);
                Err(NoMemory)
            }
            Ok((second, other)) => {
                let mut all = Seats {
                    first: one,
                    second: other,
                    slots: slot_seat,
                    pool: pool_seat,
                };
                let ran = run_codecs(rt, alloc, &first, &second, &slots, &pool, &mut all, steps);
                let left = finish_all(first, second, slots, pool, all);
                match ran {
                    Ok(()) => Ok(left),
                    Err(NoMemory) => Err(NoMemory),
                }
            }
        },
    }
}

fn finish_all(
    first: SharedCodec<SampleCoder>,
    second: SharedCodec<SampleCoder>,
    slots: SlotRegistry<SampleCoder>,
    pool: SharedPool,
    all: Seats,
) -> Left
    requires live { AreLive first second slots pool all }
    requires parts { all.pool.me.0.parts ≡ 2 ^ 32 }
{
    let Seats {
        first: one,
        second: two,
        slots: three,
        pool: four,
    } = all;
    Left {
        first: first.finish(one),
        second: second.finish(two),
        slots: slots.finish(three),
        pool: pool.finish(four),
    }
}

/// Four threads that encode, reset and work on two codecs, so many steps each on each.
pub fn four_threads<R: Threads + Wait + Sync>(
    rt: &R,
    alloc: Global,
    steps: u32,
) -> Result<Left, NoMemory> {
    let coders = coders(alloc)?;
    let (pool, pool_seat) = SharedPool::open(alloc)?;
    match SlotRegistry::open(alloc, coders) {
        Err(NoMemory) => {
            let _ = pool.finish(pool_seat);
            Err(NoMemory)
        }
        Ok((slots, slot_seat)) => run_with(rt, alloc, slots, slot_seat, pool, pool_seat, steps),
    }
}
