//! The pool behind the lock.
ghost use Rattle.std.specs.Prelude.{◌≡◌, ◌≤◌, ◌^◌, IfOk};
ghost use Rattle.seat_lock.specs.Logs.{AllBy, entries_of};
ghost use Rattle.seat_lock.specs.Passages.{IsNewSeat, IsUnion};
ghost use Rattle.seat_lock.specs.Seats.{IsSameSeat, IsIdleAt, HasView, Becomes};
ghost use Rattle.seat_lock.specs.Seats.{first_view, less_part};

use seat_lock::{Seat, SeatLock, Told};
use std::alloc::Global;
use std::marker::Model;
use wc_base::NoMemory;
use wc_pool::{Pool, PoolEntry};

/// A pool in its lock. It stands for the lists of passages whose entries are its history.
#[derive(Drop)]
pub struct LockedPool {
    pub pool: Pool,
}

impl Told for LockedPool {
    ghost use Rattle.wc_pool.specs.Bag.{mints};
    ghost use Rattle.shared_pool.specs.Refs.{ends, IsPoolLog};

    type Entry = PoolEntry;

    type About = ();

    ghost mints = { mints };

    ghost spends = { ends };

    ghost tells = { λ _ x log. IsPoolLog x.pool log };
}

/// A seat at a shared pool, with which one thread at a time makes its calls.
pub type PoolSeat = Seat<LockedPool>;

/// A pool of media resources that threads share, each by a seat of its own. A reference in hand is live in its history,
/// whichever thread holds it: it carries a token of the lock. To a contract it is the number of its lock's table.
pub struct SharedPool {
    pub(crate) lock: SeatLock<LockedPool>,
}

impl Model for SharedPool {
    ghost use Rattle.atomic_table.specs.Seated.{TableId};

    ghost Value = { TableId };

    ghost view = { λ p. p.lock.id };
}

impl SharedPool {
    /// A pool that has made nothing, and its first seat, which has all 2^32 parts.
    pub fn open(alloc: Global) -> Result<(SharedPool, PoolSeat), NoMemory>
        ensures { IfOk result (λ r. (r.1.table_id ≡ r.0) × HasView first_view r.1) }
    {
        let pool = Pool::open(alloc);
        let (lock, seat) = SeatLock::open(alloc, LockedPool { pool }, &())?;
        Ok((SharedPool { lock }, seat))
    }

    /// One part of a seat goes to a new seat, which has seen what it has and has made nothing. It takes no memory.
    pub fn split(&self, seat: &mut PoolSeat) -> PoolSeat
        requires seat { IsIdleAt self.now seat.old }
        requires parts { 2 ≤ seat.old.me.0.parts }
        ensures old { Becomes (less_part seat.old.me.0) seat.old seat.new }
        ensures new { (result.table_id ≡ self.now) × IsNewSeat seat.old.me.0 result }
    {
        self.lock.split(seat)
    }

    /// A seat takes in another one: its parts, its passages and its claims. It has then seen the longer of both logs. It
    /// takes no memory.
    pub fn join(&self, into: &mut PoolSeat, from: PoolSeat)
        requires into { IsIdleAt self.now into.old }
        requires from { IsIdleAt self.now from }
        ensures { IsSameSeat into.old into.new × IsUnion into.old.me.0 from.me.0 into.new }
    {
        self.lock.join(into, from);
    }

    /// The pool, once every other seat was joined to this one: it has all 2^32 parts. The pool's history is what the seat
    /// has seen, and each entry was made through one of the seats that were joined to it. It takes no memory.
    pub fn finish(self, seat: PoolSeat) -> Pool
        requires seat { IsIdleAt self seat }
        requires parts { seat.me.0.parts ≡ 2 ^ 32 }
        ensures history { result ≡ entries_of seat.me.0.log }
        ensures all { AllBy seat.me.0.numbers seat.me.0.log }
    {
        let SharedPool { lock } = self;
        let LockedPool { pool } = lock.close(seat);
        pool
    }
}
