// Ports between threads.
use crate::notes::{Note, Received, open_port, send_across, send_all};
use shared_port::PortRest;
use std::sync::Wait;
use std::test::*;
use wc_base::Who;

const COUNT: u32 = 50;

// Whether this is the next step of its caller.
fn is_next(who: Who, first: &mut u32, second: &mut u32) -> bool {
    let next = if who.caller == 1 { *first } else { *second };
    if who.step != next || next >= COUNT {
        return false;
    }
    if who.caller == 1 {
        *first = next + 1;
    } else {
        *second = next + 1;
    }
    true
}

// How many steps of caller 1 and of another were received or are left, where each caller's stand in order.
fn counts<R: Wait>(rt: &R, received: &Received, rest: &mut PortRest<Note>) -> Option<(u32, u32)> {
    let (mut first, mut second) = (0, 0);
    for who in received {
        if !is_next(*who, &mut first, &mut second) {
            return None;
        }
    }
    for _ in 0..2 * COUNT {
        let Some((who, note)) = rest.next(rt) else {
            break;
        };
        if note.number != who.step || !is_next(who, &mut first, &mut second) {
            return None;
        }
    }
    Some((first, second))
}

#[test]
fn two_post_and_one_receives(rt: HostRuntime) -> Result<(), Fail> {
    for turns in [0, 20, 100] {
        let (port, pass) = open_port(rt.alloc())?;
        let (mut rest, received) = send_all(&rt, rt.alloc(), port, pass, COUNT, turns);
        let all = counts(&rt, &received, &mut rest);
        assert_eq!(rt; all, Some((COUNT, COUNT)));
        assert_eq!(rt; rest.next(&rt), None);
    }
    Ok(())
}

#[test]
fn one_thread_posts_and_another_receives(rt: HostRuntime) -> Result<(), Fail> {
    for turns in [10, 60, 1000] {
        let (port, pass) = open_port(rt.alloc())?;
        let (mut rest, received) = send_across(&rt, rt.alloc(), port, pass, COUNT, turns);
        let all = counts(&rt, &received, &mut rest);
        assert_eq!(rt; all, Some((COUNT, 0)));
        assert_eq!(rt; rest.next(&rt), None);
    }
    Ok(())
}

#[test]
fn one_pass_receives_in_order(rt: HostRuntime) -> Result<(), Fail> {
    let (port, mut pass) = open_port(rt.alloc())?;
    assert_eq!(rt; port.receive(&rt, &mut pass), None);
    for step in 0..40 {
        let who = Who { caller: 7, step };
        let posted = port.post(&rt, &mut pass, who, Note { number: step + 1 });
        assert_eq!(rt; posted, Ok(()));
    }
    for place in 0..35 {
        let who = Who {
            caller: 7,
            step: place,
        };
        let received = port.receive(&rt, &mut pass);
        assert_eq!(rt; received, Some((who, Note { number: place + 1 })));
    }
    let mut rest = port.finish(&rt, pass);
    for step in 35..40 {
        let who = Who { caller: 7, step };
        assert_eq!(rt; rest.next(&rt), Some((who, Note { number: step + 1 })));
    }
    assert_eq!(rt; rest.next(&rt), None);
    Ok(())
}
