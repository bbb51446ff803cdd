// Flushes of a shared codec, by one thread and by two.
ghost use Rattle.std.specs.Prelude.{◌≡◌, ◌≤◌, IfOk};
ghost use Rattle.seat_lock.specs.Seats.{IsIdleAt, HasView, first_view};
ghost use Rattle.shared_tests.specs.Resting.{Rests};

use codec_core::Core;
use codec_media::HoldingCore;
use codec_model::{Call, Entry, Kind, PromiseState};
use sample_coder::SampleCoder;
use shared_codec::{CodecSeat, SharedCodec};
use shared_pool::SharedPool;
use shared_slots::SlotRegistry;
use std::alloc::Global;
use std::sync::{Barrier, Wait};
use std::thread;
use std::thread::Threads;
use wc_base::{NoMemory, Who};

/// A codec with so many places for calls that send no message, whose registry has no boxes.
pub fn open_codec(
    alloc: Global,
    calls: u64,
) -> Result<(SharedCodec<SampleCoder>, CodecSeat<SampleCoder>), NoMemory>
    ensures { IfOk result (λ r. (r.1.table_id ≡ r.0.id) × HasView first_view r.1) }
{
    let (pool, pool_seat) = SharedPool::open(alloc)?;
    match SlotRegistry::open(alloc, Vec::new(alloc)) {
        Ok((slots, slot_seat)) => {
            let kind = Kind::AudioDecoder;
            let opened = SharedCodec::open(alloc, 0, kind, 1, calls, &pool, &slots);
            let _ = slots.finish(slot_seat);
            let _ = pool.finish(pool_seat);
            opened
        }
        Err(NoMemory) => {
            let _ = pool.finish(pool_seat);
            Err(NoMemory)
        }
    }
}

/// What a flush answers, and what looks through two seats see of it.
#[derive(Debug, PartialEq, Drop)]
pub struct Looks {
    pub answer: Option<(u64, Option<u64>)>,
    pub entries: u64,
    pub end: PromiseState,
    pub others_entries: u64,
}

/// A flush through one seat, looks through it, and a look through another one.
pub fn flush_and_look<R: Wait>(
    rt: &R,
    codec: &SharedCodec<SampleCoder>,
    first: &mut CodecSeat<SampleCoder>,
) -> Looks
    requires seat { IsIdleAt codec.now.id first.old }
    requires parts { 2 ≤ first.old.me.0.parts }
    ensures { Rests first.old first.new }
{
    let who = Who { caller: 0, step: 0 };
    let answer = match codec.call(rt, first, who, Call::Flush) {
        Ok(reply) => Some((reply.place, reply.promise)),
        Err(NoMemory) => None,
    };
    let (entries, _, _) = codec.look(rt, first);
    let end = codec.end_of(rt, first, 0);
    let mut second = codec.split(first);
    let (others_entries, _, _) = codec.look(rt, &mut second);
    codec.join(first, second);
    Looks {
        answer,
        entries,
        end,
        others_entries,
    }
}

/// So many flushes by one caller.
pub fn flush_many<R: Wait>(
    rt: &R,
    codec: &SharedCodec<SampleCoder>,
    mut seat: CodecSeat<SampleCoder>,
    caller: u32,
    count: u32,
) -> CodecSeat<SampleCoder>
    requires { IsIdleAt codec.now.id seat }
    ensures { Rests seat result }
{
    for step in 0..count {
        let _ = codec.call(rt, &mut seat, Who { caller, step }, Call::Flush);
        thread::yield_now();
    }
    seat
}

/// Two threads begin together and make so many flushes each, as callers 1 and 2.
pub fn flush_both<R: Threads + Wait + Sync>(
    rt: &R,
    codec: SharedCodec<SampleCoder>,
    mut first: CodecSeat<SampleCoder>,
    count: u32,
) -> HoldingCore<SampleCoder>
    requires { (first.table_id ≡ codec.id) × HasView first_view first }
{
    let second = codec.split(&mut first);
    let shared = &codec;
    let start = Barrier::new(2);
    let both = &start;
    let (mut one, other) = thread::join(
        rt,
        move ||
            requires { IsIdleAt shared.now.id first }
            ensures { Rests first result }
        {
            both.wait(rt);
            flush_many(rt, shared, first, 1, count)
        },
        move ||
            requires { IsIdleAt shared.now.id second }
            ensures { Rests second result }
        {
            both.wait(rt);
            flush_many(rt, shared, second, 2, count)
        },
    );
    codec.join(&mut one, other);
    codec.finish(one)
}

// Whether each caller's flushes stand in the history once and in order, so many of each, and no other entry.
fn are_both(core: &Core<SampleCoder>, count: u32) -> bool {
    let mut first = 0;
    let mut second = 0;
    let (entries, _, _) = core.look();
    for place in 0..entries {
        let Some(
            Entry::Call {
                who,
                call: Call::Flush,
            },
        ) = core.entry(place)
        else {
            return false;
        };
        if who.caller == 1 && who.step == first && first < count {
            first += 1;
        } else if who.caller == 2 && who.step == second && second < count {
            second += 1;
        } else {
            return false;
        }
    }
    first == count && second == count
}

/// A flush of a codec of its own, with looks through two seats, and how many entries were made.
pub fn flush_alone<R: Wait>(rt: &R, alloc: Global) -> Result<(Looks, u64), NoMemory> {
    let (codec, mut first) = open_codec(alloc, 4)?;
    let looks = flush_and_look(rt, &codec, &mut first);
    let core = codec.finish(first);
    Ok((looks, core.core().look().0))
}

/// How many entries two threads make with so many flushes each, and whether each thread's stand once and in order.
pub fn count_flushes<R: Threads + Wait + Sync>(
    rt: &R,
    alloc: Global,
    count: u32,
) -> Result<(u64, bool), NoMemory> {
    let (codec, seat) = open_codec(alloc, 2 * count as u64)?;
    let core = flush_both(rt, codec, seat, count);
    Ok((core.core().look().0, are_both(core.core(), count)))
}
