//! Posts so many notes to a port and receives them, to measure what a post and its receive cost: `port_speed one COUNT` does so in
//! one thread, each receive behind its post, and `port_speed two COUNT` posts in one thread and receives in another. It prints the
//! sum of the numbers that were received, and how many nanoseconds all took to the standard error.
#![tactic(auto)]

ghost use Rattle.std.specs.Prelude.{◌≡◌, ◌^◌, IfOk};
ghost use Rattle.shared_port.specs.Ports.{IsPassOf, seen};
ghost use Rattle.port_speed.specs.Passing.{Keeps};

use shared_pool::SharedPool;
use shared_port::{Carried, PortPass, SharedPort};
use std::alloc::Global;
use std::process::ExitCode;
use std::rt::Env;
use std::sync::{Barrier, Wait};
use std::thread::Threads;
use std::time::{Clock, Instant};
use std::{env, io, thread};
use wc_base::{NoMemory, Who};

// What is posted. It holds no reference.
#[derive(Drop)]
struct Note {
    number: u32,
}

impl Carried for Note {
    ghost use Rattle.std.specs.Prelude.{⊤};

    ghost is_of = { λ pool note. ⊤ };
}

// A port of a pool that is finished at once, since notes hold no reference.
fn open_port(alloc: Global) -> Result<(SharedPort<Note>, PortPass<Note>), NoMemory>
    ensures { IfOk result (λ r. IsPassOf r.0 r.1 × ((seen r.1).parts ≡ 2 ^ 32)) }
{
    let (pool, seat) = SharedPool::open(alloc)?;
    let opened = SharedPort::open(alloc, &pool);
    let _pool = pool.finish(seat);
    opened
}

// Each receive behind its post.
fn post_and_receive<R: Wait>(
    rt: &R,
    port: &SharedPort<Note>,
    mut pass: PortPass<Note>,
    count: u32,
) -> (PortPass<Note>, u64)
    requires { IsPassOf port.now pass }
    ensures { Keeps port.now pass result.0 }
{
    let mut sum: u64 = 0;
    for step in 0..count {
        let who = Who { caller: 0, step };
        let _ = port.post(rt, &mut pass, who, Note { number: step });
        if let Some((_, note)) = port.receive(rt, &mut pass) {
            sum = sum.wrapping_add(u64::from(note.number));
        }
    }
    (pass, sum)
}

// So many posts, each again and again until there is memory for it.
fn post_all<R: Wait>(
    rt: &R,
    port: &SharedPort<Note>,
    mut pass: PortPass<Note>,
    count: u32,
) -> PortPass<Note>
    requires { IsPassOf port.now pass }
    ensures { Keeps port.now pass result }
{
    let mut step = 0;
    for _ in rt.forever() {
        if step >= count {
            break;
        }
        let who = Who { caller: 0, step };
        if port.post(rt, &mut pass, who, Note { number: step }).is_ok() {
            step += 1;
        }
    }
    pass
}

// So many receives, each as soon as there is something to receive.
fn receive_all<R: Wait>(
    rt: &R,
    port: &SharedPort<Note>,
    mut pass: PortPass<Note>,
    count: u32,
) -> (PortPass<Note>, u64)
    requires { IsPassOf port.now pass }
    ensures { Keeps port.now pass result.0 }
{
    let mut sum: u64 = 0;
    let mut received = 0;
    for _ in rt.forever() {
        if received >= count {
            break;
        }
        match port.receive(rt, &mut pass) {
            Some((_, note)) => {
                sum = sum.wrapping_add(u64::from(note.number));
                received += 1;
            }
            None => thread::yield_now(),
        }
    }
    (pass, sum)
}

// Posts in one thread and receives in another, which begin together.
fn send_across<R: Threads + Wait + Sync>(
    rt: &R,
    port: &SharedPort<Note>,
    mut first: PortPass<Note>,
    count: u32,
) -> (PortPass<Note>, u64)
    requires { IsPassOf port.now first × ((seen first).parts ≡ 2 ^ 32) }
    ensures { Keeps port.now first result.0 }
{
    let second = port.split(&mut first);
    let start = Barrier::new(2);
    let both = &start;
    let (mut first, (second, sum)) = thread::join(
        rt,
        move ||
            requires { IsPassOf port.now first }
            ensures { Keeps port.entry.now first result }
        {
            both.wait(rt);
            post_all(rt, port, first, count)
        },
        move ||
            requires { IsPassOf port.now second }
            ensures { Keeps port.entry.now second result.0 }
        {
            both.wait(rt);
            receive_all(rt, port, second, count)
        },
    );
    port.join(&mut first, second);
    (first, sum)
}

// So many posts and receives, in two threads or in one.
fn send<R: Threads + Wait + Sync>(
    rt: &R,
    port: &SharedPort<Note>,
    pass: PortPass<Note>,
    with_two: bool,
    count: u32,
) -> (PortPass<Note>, u64)
    requires { IsPassOf port.now pass × ((seen pass).parts ≡ 2 ^ 32) }
    ensures { Keeps port.now pass result.0 }
{
    if with_two {
        send_across(rt, port, pass, count)
    } else {
        post_and_receive(rt, port, pass, count)
    }
}

// The sum of what was received, and how long that took.
fn measure<R: Threads + Wait + Clock + Sync>(
    rt: &R,
    alloc: Global,
    with_two: bool,
    count: u32,
) -> Result<Option<(u64, u128)>, NoMemory> {
    let (port, pass) = open_port(alloc)?;
    let start = Instant::now(rt);
    let (pass, sum) = send(rt, &port, pass, with_two, count);
    let _rest = port.finish(rt, pass);
    let Ok(start) = start else { return Ok(None) };
    match start.elapsed(rt) {
        Ok(took) => Ok(Some((sum, took.as_nanos()))),
        Err(_) => Ok(None),
    }
}

fn words(rt: &(impl Env + Alloc<A = Global>)) -> io::Result<Vec<String>> {
    let mut words = Vec::new(rt.alloc());
    for word in env::args(rt)?.skip(1) {
        words.push(word)?;
    }
    Ok(words)
}

// Whether two threads are asked for, and how many notes.
fn work_of(words: &[String]) -> Option<(bool, u32)> {
    let [threads, count] = words else {
        return None;
    };
    let Ok(count) = count.as_str().parse::<u32>() else {
        return None;
    };
    match threads.as_str() {
        "one" => Some((false, count)),
        "two" => Some((true, count)),
        _ => None,
    }
}

fn main(rt: HostRuntime) -> ExitCode {
    let Ok(words) = words(&rt) else {
        return ExitCode::from(1);
    };
    let Some((with_two, count)) = work_of(&words) else {
        return ExitCode::from(2);
    };
    let Ok(Some((sum, nanos))) = measure(&rt, rt.alloc(), with_two, count) else {
        return ExitCode::from(6);
    };
    match (println!(rt; "{sum}"), eprintln!(rt; "{nanos}")) {
        (Ok(()), Ok(())) => ExitCode::from(0),
        _ => ExitCode::from(5),
    }
}
