use crate::marks::*;
use crate::stock::*;
use seat_lock::SeatLock;
use std::test::*;

// Whether each thread's marks stand in the list once and in order, so many of each, and no others.
fn are_both(marks: &[Mark], count: u32) -> bool {
    let mut first = 0;
    let mut second = 0;
    for mark in marks {
        if mark.thread == 1 && mark.step == first && first < count {
            first += 1;
        } else if mark.thread == 2 && mark.step == second && second < count {
            second += 1;
        } else {
            return false;
        }
    }
    first == count && second == count
}

#[test]
fn two_threads_ten_times(rt: HostRuntime) -> Result<(), Fail> {
    for _ in 0..10 {
        let marks = Marks::with_room(rt.alloc(), 200)?;
        let (lock, seat) = SeatLock::open(rt.alloc(), marks, &())?;
        let marks = add_both(&rt, lock, seat, 100);
        assert!(rt; marks.as_slice().len() == 200);
        assert!(rt; are_both(marks.as_slice(), 100));
    }
    Ok(())
}

#[test]
fn claims_go_from_seat_to_seat(rt: HostRuntime) -> Result<(), Fail> {
    let (lock, mut first) = SeatLock::open(rt.alloc(), Stock { minted: 0 }, &())?;
    let mut second = lock.split(&mut first);
    assert!(rt; mint_and_spend(&rt, &lock, &mut first, &mut second));
    assert!(rt; mint_and_spend(&rt, &lock, &mut second, &mut first));
    lock.join(&mut first, second);
    assert!(rt; lock.close(first).minted == 2);
    Ok(())
}
