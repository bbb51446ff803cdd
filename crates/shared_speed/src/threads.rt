// Decodes in several threads at once.
ghost use Rattle.std.specs.Prelude.{◌≡◌};
ghost use Rattle.shared_speed.specs.Seating.{IsDesk, AreLive, AreKept};

use crate::shared::{Desk, Seats, configure, decode_many, finish, join, open, split};
use std::alloc::Global;
use std::sync::Wait;
use std::thread;
use std::thread::Threads;
use wc_base::NoMemory;

/// How many threads there are, and whether each has a codec of its own.
#[derive(Clone, Copy)]
pub enum Plan {
    One,
    TwoOwn,
    FourOwn,
    TwoOnOne,
    FourOnOne,
}

// One thread, with a codec of its own.
fn own<R: Wait>(rt: &R, alloc: Global, count: u64) -> Result<u64, NoMemory> {
    let (desk, seats) = open(alloc)?;
    let seats = configure(rt, alloc, &desk, seats);
    let seats = decode_many(rt, alloc, &desk, seats, count);
    Ok(finish(desk, seats))
}

fn sum(one: Result<u64, NoMemory>, other: Result<u64, NoMemory>) -> Result<u64, NoMemory> {
    Ok(one?.saturating_add(other?))
}

fn two_own<R: Threads + Wait + Sync>(rt: &R, alloc: Global, count: u64) -> Result<u64, NoMemory> {
    let (one, other) = thread::join(
        rt,
        move || own(rt, alloc, count),
        move || own(rt, alloc, count),
    );
    sum(one, other)
}

fn four_own<R: Threads + Wait + Sync>(rt: &R, alloc: Global, count: u64) -> Result<u64, NoMemory> {
    let (one, other) = thread::join(
        rt,
        move || two_own(rt, alloc, count),
        move || two_own(rt, alloc, count),
    );
    sum(one, other)
}

// Two threads on one codec.
fn two_on_one<R: Threads + Wait + Sync>(
    rt: &R,
    alloc: Global,
    desk: &Desk,
    mut seats: Seats,
    other: Seats,
    count: u64,
) -> (Seats, Seats)
    requires desk { IsDesk desk.now }
    requires live { AreLive desk.now seats }
    requires other { AreLive desk.now other }
    ensures live { AreKept desk.now seats result.0 }
    ensures other { AreKept desk.now other result.1 }
{
    thread::join(
        rt,
        move ||
            requires desk { IsDesk desk.now }
            requires live { AreLive desk.now seats }
            ensures { AreKept desk.entry.now seats result }
        { decode_many(rt, alloc, desk, seats, count) },
        move ||
            requires desk { IsDesk desk.now }
            requires live { AreLive desk.now other }
            ensures { AreKept desk.entry.now other result }
        { decode_many(rt, alloc, desk, other, count) },
    )
}

// Two threads on one codec; how many entries there are.
fn two_entries<R: Threads + Wait + Sync>(
    rt: &R,
    alloc: Global,
    count: u64,
) -> Result<u64, NoMemory> {
    let (desk, seats) = open(alloc)?;
    let mut seats = configure(rt, alloc, &desk, seats);
    let other = split(&desk, &mut seats);
    let (mut seats, other) = two_on_one(rt, alloc, &desk, seats, other, count);
    join(&desk, &mut seats, other);
    Ok(finish(desk, seats))
}

/// So many decodes in each thread; how many entries there are.
pub fn count_entries<R: Threads + Wait + Sync>(
    rt: &R,
    alloc: Global,
    plan: Plan,
    count: u64,
) -> Result<u64, NoMemory> {
    match plan {
        Plan::One => own(rt, alloc, count),
        Plan::TwoOwn => two_own(rt, alloc, count),
        Plan::FourOwn => four_own(rt, alloc, count),
        Plan::TwoOnOne => two_entries(rt, alloc, count),
        Plan::FourOnOne => four_entries(rt, alloc, count),
    }
}

// Four threads on one codec; how many entries there are.
fn four_entries<R: Threads + Wait + Sync>(
    rt: &R,
    alloc: Global,
    count: u64,
) -> Result<u64, NoMemory> {
    let (desk, seats) = open(alloc)?;
    let mut one = configure(rt, alloc, &desk, seats);
    let two = split(&desk, &mut one);
    let three = split(&desk, &mut one);
    let four = split(&desk, &mut one);
    let (mut seats, two, three, four) = four_on_one(rt, alloc, &desk, one, two, three, four, count);
    join(&desk, &mut seats, two);
    join(&desk, &mut seats, three);
    join(&desk, &mut seats, four);
    Ok(finish(desk, seats))
}

// Four threads on one codec.
fn four_on_one<R: Threads + Wait + Sync>(
    rt: &R,
    alloc: Global,
    desk: &Desk,
    one: Seats,
    two: Seats,
    three: Seats,
    four: Seats,
    count: u64,
) -> (Seats, Seats, Seats, Seats)
    requires desk { IsDesk desk.now }
    requires one { AreLive desk.now one }
    requires two { AreLive desk.now two }
    requires three { AreLive desk.now three }
    requires four { AreLive desk.now four }
    ensures one { AreKept desk.now one result.0 }
    ensures two { AreKept desk.now two result.1 }
    ensures three { AreKept desk.now three result.2 }
    ensures four { AreKept desk.now four result.3 }
{
    let ((one, two), (three, four)) = thread::join(
        rt,
        move ||
            requires desk { IsDesk desk.now }
            requires one { AreLive desk.now one }
            requires two { AreLive desk.now two }
            ensures one { AreKept desk.entry.now one result.0 }
            ensures two { AreKept desk.entry.now two result.1 }
        { two_on_one(rt, alloc, desk, one, two, count) },
        move ||
            requires desk { IsDesk desk.now }
            requires three { AreLive desk.now three }
            requires four { AreLive desk.now four }
            ensures three { AreKept desk.entry.now three result.0 }
            ensures four { AreKept desk.entry.now four result.1 }
        { two_on_one(rt, alloc, desk, three, four, count) },
    );
    (one, two, three, four)
}
