//! Notes that threads post to each other.
ghost use Rattle.std.specs.Prelude.{◌≡◌, ◌^◌, IfOk};
ghost use Rattle.shared_port.specs.Ports.{IsPassOf, seen};
ghost use Rattle.port_tests.specs.Passing.{Keeps};

use shared_pool::SharedPool;
use shared_port::{Carried, PortPass, PortRest, SharedPort};
use std::alloc::Global;
use std::sync::Wait;
use std::thread;
use std::thread::Threads;
use wc_base::{NoMemory, Who};

/// What a thread tells another. It holds no reference.
#[derive(Debug, PartialEq, Drop)]
pub struct Note {
    pub number: u32,
}

impl Carried for Note {
    ghost use Rattle.std.specs.Prelude.{⊤};

    ghost is_of = { λ pool note. ⊤ };
}

/// Who posted what a thread received, in order.
pub type Received = Vec<Who>;

/// A port of a pool that is finished at once, since notes hold no reference.
pub fn open_port(alloc: Global) -> Result<(SharedPort<Note>, PortPass<Note>), NoMemory>
    ensures { IfOk result (λ r. IsPassOf r.0 r.1 × ((seen r.1).parts ≡ 2 ^ 32)) }
{
    let (pool, seat) = SharedPool::open(alloc)?;
    let opened = SharedPort::open(alloc, &pool);
    let _pool = pool.finish(seat);
    opened
}

/// So many posts of a caller, each with its step as its number.
pub fn post_many<R: Wait>(
    rt: &R,
    port: &SharedPort<Note>,
    mut pass: PortPass<Note>,
    caller: u32,
    count: u32,
) -> PortPass<Note>
    requires { IsPassOf port.now pass }
    ensures { Keeps port.now pass result }
{
    for step in 0..count {
        let who = Who { caller, step };
        let _ = port.post(rt, &mut pass, who, Note { number: step });
    }
    pass
}

/// So many receives.
pub fn receive_many<R: Wait>(
    rt: &R,
    port: &SharedPort<Note>,
    mut pass: PortPass<Note>,
    mut into: Received,
    turns: u32,
) -> (PortPass<Note>, Received)
    requires { IsPassOf port.now pass }
    ensures { Keeps port.now pass result.0 }
{
    for _ in 0..turns {
        match port.receive(rt, &mut pass) {
            Some((who, _)) => {
                let _ = into.push(who);
            }
            None => thread::yield_now(),
        }
    }
    (pass, into)
}

/// Two passes post, as callers 1 and 2, and a third one receives after each. What is left, and who posted what was received.
pub fn send_all<R: Wait>(
    rt: &R,
    alloc: Global,
    port: SharedPort<Note>,
    mut first: PortPass<Note>,
    count: u32,
    turns: u32,
) -> (PortRest<Note>, Received)
    requires { IsPassOf port first × ((seen first).parts ≡ 2 ^ 32) }
{
    let second = port.split(&mut first);
    let third = port.split(&mut first);
    let mut first = post_many(rt, &port, first, 1, count);
    let (third, received) = receive_many(rt, &port, third, Vec::new(alloc), turns);
    let second = post_many(rt, &port, second, 2, count);
    let (third, received) = receive_many(rt, &port, third, received, turns);
    port.join(&mut first, second);
    port.join(&mut first, third);
    (port.finish(rt, first), received)
}

/// One thread posts, as caller 1, while another receives. What is left, and who posted what was received.
pub fn send_across<R: Threads + Wait + Sync>(
    rt: &R,
    alloc: Global,
    port: SharedPort<Note>,
    mut first: PortPass<Note>,
    count: u32,
    turns: u32,
) -> (PortRest<Note>, Received)
    requires { IsPassOf port first × ((seen first).parts ≡ 2 ^ 32) }
{
    let second = port.split(&mut first);
    let shared = &port;
    let received = Vec::new(alloc);
    let (mut first, (second, received)) = thread::join(
        rt,
        move ||
            requires { IsPassOf shared.now first }
            ensures { Keeps shared.entry.now first result }
        { post_many(rt, shared, first, 1, count) },
        move ||
            requires { IsPassOf shared.now second }
            ensures { Keeps shared.entry.now second result.0 }
        { receive_many(rt, shared, second, received, turns) },
    );
    port.join(&mut first, second);
    (port.finish(rt, first), received)
}
