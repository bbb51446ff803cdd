// Threads that encode, reset and work on two codecs at once.
ghost use Rattle.std.specs.Prelude.{◌≡◌};
ghost use Rattle.shared_tests.specs.Resting.{IsReady, AreKept};

use crate::desk::act;
use crate::parts::{Part, Seats};
use sample_coder::SampleCoder;
use shared_codec::SharedCodec;
use shared_pool::SharedPool;
use shared_slots::SlotRegistry;
use std::alloc::Global;
use std::sync::{Barrier, Wait};
use std::thread;
use std::thread::Threads;
use wc_base::{By, Who};

/// So many steps of a caller on each of the two codecs, and the end of its reference.
pub fn play<R: Wait>(
    rt: &R,
    alloc: Global,
    first: &SharedCodec<SampleCoder>,
    second: &SharedCodec<SampleCoder>,
    slots: &SlotRegistry<SampleCoder>,
    pool: &SharedPool,
    part: Part,
    steps: u32,
) -> Seats
    requires { IsReady first.now second.now slots.now pool.now part }
    ensures { AreKept first.now second.now slots.now pool.now part.seats result }
{
    let Part {
        caller,
        mut seats,
        mut medium,
    } = part;
    for step in 0..steps {
        let who = Who { caller, step };
        act(
            rt,
            alloc,
            first,
            &mut seats.first,
            slots,
            &mut seats.slots,
            pool,
            &mut seats.pool,
            &mut medium,
            who,
        );
        thread::yield_now();
        act(
            rt,
            alloc,
            second,
            &mut seats.second,
            slots,
            &mut seats.slots,
            pool,
            &mut seats.pool,
            &mut medium,
            who,
        );
    }
    let by = By::Caller(Who {
        caller,
        step: steps,
    });
    let _ = pool.end(rt, &mut seats.pool, by, medium.reference);
    seats
}

/// Two callers at once, which begin with the others.
pub fn play_two<R: Threads + Wait + Sync>(
    rt: &R,
    alloc: Global,
    start: &Barrier,
    first: &SharedCodec<SampleCoder>,
    second: &SharedCodec<SampleCoder>,
    slots: &SlotRegistry<SampleCoder>,
    pool: &SharedPool,
    one: Part,
    other: Part,
    steps: u32,
) -> (Seats, Seats)
    requires one { IsReady first.now second.now slots.now pool.now one }
    requires other { IsReady first.now second.now slots.now pool.now other }
    ensures one { AreKept first.now second.now slots.now pool.now one.seats result.0 }
    ensures other { AreKept first.now second.now slots.now pool.now other.seats result.1 }
{
    thread::join(
        rt,
        move ||
            requires { IsReady first.now second.now slots.now pool.now one }
            ensures { AreKept first.entry.now second.entry.now slots.entry.now
                pool.entry.now one.seats result }
        {
            start.wait(rt);
            play(rt, alloc, first, second, slots, pool, one, steps)
        },
        move ||
            requires { IsReady first.now second.now slots.now pool.now other }
            ensures { AreKept first.entry.now second.entry.now slots.entry.now
                pool.entry.now other.seats result }
        {
            start.wait(rt);
            play(rt, alloc, first, second, slots, pool, other, steps)
        },
    )
}
