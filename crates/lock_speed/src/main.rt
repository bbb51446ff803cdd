//! Makes so many passages through one lock, to measure what a passage costs: `lock_speed one PASSES` makes them in one
//! thread, and `lock_speed two PASSES` makes as many in each of two. It prints how many were made, and how many
//! nanoseconds all took to the standard error.
#![tactic(auto)]

ghost use Rattle.std.specs.Prelude.{◌≡◌, ⊤, OnOk};
ghost use Rattle.seat_lock.specs.Seats.{IsIdleAt, HasView, first_view};
ghost use Rattle.lock_speed.specs.Passing.{mints_none, spends_none, Rests};

use seat_lock::{Passage, Seat, SeatLock, Told};
use std::alloc::Global;
use std::process::ExitCode;
use std::rt::Env;
use std::sync::{Barrier, Wait};
use std::thread::Threads;
use std::time::{Clock, Instant};
use std::{env, io, thread};
use wc_base::NoMemory;

// How many passages were made. Nothing is told of it.
#[derive(Drop)]
struct Counter {
    count: u64,
}

impl Told for Counter {
    type Entry = ();

    type About = ();

    ghost mints = { mints_none };

    ghost spends = { spends_none };

    ghost tells = { λ _ _ _. ⊤ };
}

fn pass<R: Wait>(rt: &R, lock: &SeatLock<Counter>, seat: &mut Seat<Counter>)
    requires { IsIdleAt lock.now.id seat.old }
    ensures { Rests seat.old seat.new }
{
    let mut held = lock.enter(rt, seat);
    let counter = held.state();
    counter.count = counter.count.wrapping_add(1);
    lock.leave(seat, held, Passage::Look);
}

fn make_passes<R: Wait>(
    rt: &R,
    lock: &SeatLock<Counter>,
    mut seat: Seat<Counter>,
    passes: u32,
) -> Seat<Counter>
    requires { IsIdleAt lock.now.id seat }
    ensures { Rests seat result }
{
    for _ in 0..passes {
        pass(rt, lock, &mut seat);
    }
    seat
}

// As many passages in each of two threads, which begin together.
fn make_both<R: Threads + Wait + Sync>(
    rt: &R,
    lock: &SeatLock<Counter>,
    mut first: Seat<Counter>,
    passes: u32,
) -> Seat<Counter>
    requires { (first.table_id ≡ lock.now.id) × HasView first_view first }
    ensures { Rests first result }
{
    let second = lock.split(&mut first);
    let start = Barrier::new(2);
    let both = &start;
    let (mut one, other) = thread::join(
        rt,
        move ||
            requires { IsIdleAt lock.now.id first }
            ensures { Rests first result }
        {
            both.wait(rt);
            make_passes(rt, lock, first, passes)
        },
        move ||
            requires { IsIdleAt lock.now.id second }
            ensures { Rests second result }
        {
            both.wait(rt);
            make_passes(rt, lock, second, passes)
        },
    );
    lock.join(&mut one, other);
    one
}

// How many passages were made in all, and how long that took.
fn measure<R: Threads + Wait + Clock + Sync>(
    rt: &R,
    alloc: Global,
    with_two: bool,
    passes: u32,
) -> Result<Option<(u64, u128)>, NoMemory> {
    let (lock, seat) = SeatLock::open(alloc, Counter { count: 0 }, &())?;
    let start = Instant::now(rt);
    let seat = if with_two {
        make_both(rt, &lock, seat, passes)
    } else {
        make_passes(rt, &lock, seat, passes)
    };
    let Counter { count } = lock.close(seat);
    let Ok(start) = start else { return Ok(None) };
    match start.elapsed(rt) {
        Ok(took) => Ok(Some((count, took.as_nanos()))),
        Err(_) => Ok(None),
    }
}

fn words(rt: &(impl Env + Alloc<A = Global>)) -> io::Result<Vec<String>> {
    let mut words = Vec::new(rt.alloc());
    for word in env::args(rt)?.skip(1) {
        words.push(word)?;
    }
    Ok(words)
}

// Whether two threads are asked for, and how many passages.
fn work_of(words: &[String]) -> Option<(bool, u32)> {
    let [threads, passes] = words else {
        return None;
    };
    let Ok(passes) = passes.as_str().parse::<u32>() else {
        return None;
    };
    match threads.as_str() {
        "one" => Some((false, passes)),
        "two" => Some((true, passes)),
        _ => None,
    }
}

fn main(rt: HostRuntime) -> ExitCode {
    let Ok(words) = words(&rt) else {
        return ExitCode::from(1);
    };
    let Some((with_two, passes)) = work_of(&words) else {
        return ExitCode::from(2);
    };
    let Ok(Some((count, nanos))) = measure(&rt, rt.alloc(), with_two, passes) else {
        return ExitCode::from(6);
    };
    match (println!(rt; "{count}"), eprintln!(rt; "{nanos}")) {
        (Ok(()), Ok(())) => ExitCode::from(0),
        _ => ExitCode::from(5),
    }
}
