//! A plain list behind a lock, to which two threads add.
ghost use Rattle.std.specs.Prelude.{◌≡◌, ℕ, ◌≤◌, List, [], ◌∷◌, ◌++◌, vec_len, vec_capacity, IfOk, MatchBool};
ghost use Rattle.wc_base.specs.declared.seat.Passage.TheVariants.{Look};
ghost use Rattle.seat_lock.specs.Logs.{entries_of};
ghost use Rattle.seat_lock.specs.Passages.{Passes, passage_of};
ghost use Rattle.seat_lock.specs.Seats.{IsSameSeat, IsIdleAt, HasView, first_view};
ghost use Rattle.lock_tests.specs.declared.marks.Mark.{Mark};
ghost use Rattle.lock_tests.specs.Marks.{never_mints, never_spends, made_if, Goes, IsBoth, HasSeen};

use seat_lock::{Held, Passage, Seat, SeatLock, Told};
use std::alloc::{AllocError, Global};
use std::marker::Model;
use std::snapshot::Snapshot;
use std::sync::{Barrier, Wait};
use std::thread;
use std::thread::Threads;

/// What a thread adds: its number, and which of its steps this is.
#[derive(Drop, Clone, Copy, PartialEq, Eq, Debug)]
pub struct Mark {
    pub thread: u32,
    pub step: u32,
}

/// A list with room for so many marks. Clauses see the list.
#[derive(Drop)]
pub struct Marks {
    list: Vec<Mark>,
}

impl Model for Marks {
    ghost Value = { List Mark };

    ghost view = { λ m. m.list.items };

    ghost invariant = { λ m. vec_len m.list ≤ vec_capacity m.list };
}

impl Told for Marks {
    type Entry = Mark;

    type About = ();

    ghost mints = { never_mints };

    ghost spends = { never_spends };

    ghost tells = { λ _ marks log. marks ≡ entries_of log };
}

impl Marks {
    /// An empty list with room for so many marks.
    pub fn with_room(alloc: Global, room: usize) -> Result<Marks, AllocError>
        ensures { IfOk result (λ m. m ≡ []) }
    {
        let list = Vec::with_capacity(alloc, room)?;
        Ok(Marks { list })
    }

    pub fn as_slice(&self) -> &[Mark]
        ensures { result.now ≡ self.now }
    {
        self.list.as_slice()
    }

    /// Adds the mark if there is room.
    pub fn add(&mut self, mark: Mark) -> bool
        ensures { MatchBool result (self.new ≡ self.old ++ mark ∷ []) (self.new ≡ self.old) }
    {
        if self.list.len() < self.list.capacity() {
            self.list.push_reserved(mark);
            true
        } else {
            false
        }
    }
}

fn passage_if(added: bool, mark: &Mark) -> Passage<Snapshot<Mark>>
    ensures { passage_of result ≡ made_if added mark.now }
{
    if added {
        Passage::Made(Snapshot::of(mark))
    } else {
        Passage::Look
    }
}

/// One passage, which adds the mark if there is room.
pub fn add_mark<R: Wait>(rt: &R, lock: &SeatLock<Marks>, seat: &mut Seat<Marks>, mark: Mark) -> bool
    requires { IsIdleAt lock.now.id seat.old }
    ensures same { IsSameSeat seat.old seat.new }
    ensures passage { Passes never_mints never_spends (made_if result mark) seat.old seat.new }
{
    let mut held = lock.enter(rt, seat);
    let added = held.state().add(mark);
    lock.leave(seat, held, passage_if(added, &mark));
    added
}

/// How many marks there are: those of a log that begins with what the seat had seen.
pub fn count_marks<R: Wait>(rt: &R, lock: &SeatLock<Marks>, seat: &mut Seat<Marks>) -> usize
    requires { IsIdleAt lock.now.id seat.old }
    ensures same { IsSameSeat seat.old seat.new }
    ensures passage { Passes never_mints never_spends Look seat.old seat.new }
    ensures count { HasSeen result seat.new }
{
    let mut held = lock.enter(rt, seat);
    let count = held.state().as_slice().len();
    lock.leave(seat, held, Passage::Look);
    count
}

/// So many passages by one thread.
pub fn add_marks<R: Wait>(
    rt: &R,
    lock: &SeatLock<Marks>,
    mut seat: Seat<Marks>,
    thread: u32,
    count: u32,
) -> Seat<Marks>
    requires { IsIdleAt lock.now.id seat }
    ensures { Goes thread count seat result }
{
    for step in 0..count {
        add_mark(rt, lock, &mut seat, Mark { thread, step });
    }
    seat
}

/// Two threads begin together and make so many passages each. The list that is left is that of all of them.
pub fn add_both<R: Threads + Wait + Sync>(
    rt: &R,
    lock: SeatLock<Marks>,
    mut first: Seat<Marks>,
    count: u32,
) -> Marks
    requires { (first.table_id ≡ lock.id) × HasView first_view first }
    ensures { IsBoth count result }
{
    let second = lock.split(&mut first);
    let shared = &lock;
    let start = Barrier::new(2);
    let both = &start;
    let (mut one, other) = thread::join(
        rt,
        move ||
            requires { IsIdleAt shared.now.id first }
            ensures { Goes 1 count first result }
        {
            both.wait(rt);
            add_marks(rt, shared, first, 1, count)
        },
        move ||
            requires { IsIdleAt shared.now.id second }
            ensures { Goes 2 count second result }
        {
            both.wait(rt);
            add_marks(rt, shared, second, 2, count)
        },
    );
    lock.join(&mut one, other);
    lock.close(one)
}
