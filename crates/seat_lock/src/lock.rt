//! The lock.
ghost use Rattle.std.specs.Prelude.{◌≡◌, ℕ, ◌^◌, ◌≤◌, [], ◌∷◌, IfOk};
ghost use Rattle.wc_base.specs.Views.{IsTokenWith, token_view};
ghost use Rattle.wc_base.specs.declared.seat.View.{View};
ghost use Rattle.seat_lock.specs.Logs.{AllBy, Has};
ghost use Rattle.seat_lock.specs.Passages.{Enters, MayLeave, Leaves, passage_of};
ghost use Rattle.seat_lock.specs.Passages.{IsNewSeat, IsUnion, TakesIn};
ghost use Rattle.seat_lock.specs.Seats.{Lock, IsLockTable, IsSameSeat, IsIdleAt, HasView, Becomes};
ghost use Rattle.seat_lock.specs.Seats.{first_view, less_part, less_claim};

use crate::held::Held;
use crate::picks::{AboutPick, ClaimPick, PassagePick};
use crate::steps::{ClaimSplit, Draw, Number, PartSplit, Publish, Settle, Turn, ViewJoin};
use crate::told::{LockLaw, Told};
use atomic_table::Table;
use crossbeam_utils::Backoff;
use std::alloc::Global;
use std::marker::{Brand, Model};
use std::snapshot::Snapshot;
use std::sync::Wait;
use wc_base::{NoMemory, Passage, Token, View};

/// A seat at a lock round an `S`, with which one thread at a time makes its passages. It has no bytes. Clauses see its
/// view: its number, its parts, the log that it has seen and the claims that it holds. Of a seat that is dropped the
/// parts and claims are lost, so that its lock cannot be closed any more.
pub type Seat<S> = atomic_table::Seat<Option<S>, View<<S as Told>::Entry>>;

// The words of a lock: the tickets that were drawn, and the passages that ended.
const DRAWN: usize = 0;

const ENDED: usize = 1;

// A passage whose ticket is not below this never returns.
const TICKETS: u64 = 1 << 63;

/// A lock round a value that stands for the list of all passages through the lock, its log. Each thread that shares the
/// lock has a seat. Contracts say nothing of waiting: not that a seat's turn comes, nor when.
pub struct SeatLock<S: Told> {
    table: Table<Option<S>, View<S::Entry>, S::About, LockLaw<S>, Global>,
}

impl<S: Told> Model for SeatLock<S> {
    ghost Value = { Lock S.About };

    ghost view = { λ l. record { id = l.table.shared.table_id; about = l.table.shared.key } };

    ghost invariant = { λ l. IsLockTable l.table.shared.table_id };
}

impl<S: Told> SeatLock<S> {
    /// A lock round `state`, which stands for the empty log, and its first seat, which has all 2^32 parts. `about` is
    /// what `S::tells` reads beside the value from now on. Where there is no memory the state is dropped.
    pub fn open(
        alloc: Global,
        state: S,
        about: &S::About,
    ) -> Result<(SeatLock<S>, Seat<S>), NoMemory>
    where
        S: Drop,
        requires { S.tells about.now state [] }
        ensures lock { IfOk result (λ r. r.0.about ≡ about.now) }
        ensures seat { IfOk result (λ r. (r.1.table_id ≡ r.0.id) × HasView first_view r.1) }
    {
        let mut slots = Vec::new(alloc);
        let Ok(()) = slots.push(Some(state)) else {
            return Err(NoMemory);
        };
        let Ok((table, seat)) = Table::new(alloc, &[0, 0], slots, about) else {
            return Err(NoMemory);
        };
        Ok((SeatLock { table }, seat))
    }

    /// The value, once every other seat was joined to this one: it has all 2^32 parts. Tokens may still be out. The value
    /// stands for the log that the seat has seen, in which each passage is of one of the seat's numbers.
    pub fn close(self, seat: Seat<S>) -> S
        requires seat { IsIdleAt self.id seat }
        requires parts { seat.me.0.parts ≡ 2 ^ 32 }
        ensures stands { S.tells self.about result seat.me.0.log }
        ensures all { AllBy seat.me.0.numbers seat.me.0.log }
    {
        let SeatLock { table } = self;
        let mut closed = table.close_with(seat);
        let value = closed.take(0).unwrap();
        closed.free();
        value
    }
}

// Seats
impl<S: Told> SeatLock<S> {
    /// One part of `seat` goes to a new seat, which has seen what `seat` has and has made no passage. It takes no memory.
    pub fn split(&self, seat: &mut Seat<S>) -> Seat<S>
        requires seat { IsIdleAt self.now.id seat.old }
        requires parts { 2 ≤ seat.old.me.0.parts }
        ensures old { Becomes (less_part seat.old.me.0) seat.old seat.new }
        ensures new { (result.table_id ≡ self.now.id) × IsNewSeat seat.old.me.0 result }
    {
        let mut other = self.table.shared.split_seat::<PartSplit>(seat);
        self.table.shared.load::<Number>(&mut other, DRAWN);
        other
    }

    /// `seat` takes in the parts, the passages and the claims of `other`, and has then seen the longer of both logs. It
    /// takes no memory.
    pub fn join(&self, seat: &mut Seat<S>, other: Seat<S>)
        requires seat { IsIdleAt self.now.id seat.old }
        requires other { IsIdleAt self.now.id other }
        ensures { IsSameSeat seat.old seat.new × IsUnion seat.old.me.0 other.me.0 seat.new }
    {
        self.table.shared.join_seat::<ViewJoin>(seat, other);
        self.table.shared.load::<Settle>(seat, DRAWN);
    }
}

// Passages
impl<S: Told> SeatLock<S> {
    fn wait_turn<W: AboutPick<S::About>, R: Wait>(&self, rt: &R, seat: &mut Seat<S>) -> Held<S>
        requires about { W.about ≡ Some self.now.about }
        requires seat { IsIdleAt self.now.id seat.old }
        ensures seat { IsSameSeat seat.old seat.new }
        ensures log { Enters S.mints S.spends (S.tells self.now.about) result seat.old seat.new }
    {
        let shared = &self.table.shared;
        let ticket = shared.fetch_add::<Draw>(seat, DRAWN, 1);
        let backoff = Backoff::new();
        for _ in rt.forever() {
            let turn = shared.load::<Turn<S, W>>(seat, ENDED);
            if turn == ticket && ticket < TICKETS {
                let state = shared.exchange(seat, 0, None).unwrap();
                return Held { state };
            }
            backoff.snooze();
        }
        unreachable!()
    }

    /// Waits for the turn of `seat` and hands out the value. It stands for a log that begins with all that the seat had
    /// seen and goes on with passages of others alone, and in which each claim of the seat is live. A passage
    /// draws a ticket and waits until as many passages have ended; one whose ticket is 2^63 or more never returns. It
    /// takes no memory.
    pub fn enter<R: Wait>(&self, rt: &R, seat: &mut Seat<S>) -> Held<S>
        requires { IsIdleAt self.now.id seat.old }
        ensures seat { IsSameSeat seat.old seat.new }
        ensures log { Enters S.mints S.spends (S.tells self.now.about) result seat.old seat.new }
    {
        self.wait_turn::<Brand, R>(rt, seat)
    }

    fn publish<W: PassagePick<S::Entry>>(
        &self,
        seat: &mut Seat<S>,
        state: S,
        passage: &Passage<Snapshot<S::Entry>>,
    )
        requires passage { W.passage ≡ passage_of passage.now }
        requires seat { seat.old.table_id ≡ self.now.id }
        requires log { MayLeave S.mints S.spends (S.tells self.now.about) state W.passage seat.old }
        ensures same { IsSameSeat seat.old seat.new }
        ensures log { Leaves S.mints S.spends W.passage seat.old seat.new }
    {
        let _ = passage;
        let shared = &self.table.shared;
        let old = shared.exchange(seat, 0, Some(state));
        let None = old else { unreachable!() };
        shared.fetch_add::<Publish<S, W>>(seat, ENDED, 1);
    }

    /// Takes the value back and ends the passage of `seat`. The log is then the one that `enter` gave, and this passage
    /// with the seat's number; the value stands for it. The seat must hold the claim that the passage spends, if it spends
    /// one. It then has that claim no more, and has the one that the passage mints. It takes no memory.
    pub fn leave(&self, seat: &mut Seat<S>, held: Held<S>, passage: Passage<Snapshot<S::Entry>>)
        requires seat { seat.old.table_id ≡ self.now.id }
        requires log { MayLeave S.mints S.spends (S.tells self.now.about) held
            (passage_of passage) seat.old }
        ensures same { IsSameSeat seat.old seat.new }
        ensures log { Leaves S.mints S.spends (passage_of passage) seat.old seat.new }
    {
        let Held { state } = held;
        self.publish::<Brand>(seat, state, &passage);
    }
}

// Tokens
impl<S: Told> SeatLock<S> {
    fn cut_claim<W: ClaimPick>(&self, seat: &mut Seat<S>, claim: u64) -> Seat<S>
        requires pick { W.claim ≡ claim }
        requires seat { IsIdleAt self.now.id seat.old }
        requires claim { Has claim seat.old.me.0.claims }
        ensures old { Becomes (less_claim claim seat.old.me.0) seat.old seat.new }
        ensures lock { result.table_id ≡ self.now.id }
        ensures new { HasView (token_view claim seat.old.me.0) result }
    {
        let _ = claim;
        self.table.shared.split_seat::<ClaimSplit<W>>(seat)
    }

    /// The claim with this number, which `seat` holds, goes to a token. It takes no memory.
    pub fn cut_token(&self, seat: &mut Seat<S>, claim: u64) -> Token<S::Entry>
        requires seat { IsIdleAt self.now.id seat.old }
        requires claim { Has claim seat.old.me.0.claims }
        ensures seat { Becomes (less_claim claim seat.old.me.0) seat.old seat.new }
        ensures lock { result.table_id ≡ self.now.id }
        ensures token { IsTokenWith (token_view claim seat.old.me.0) result }
    {
        self.cut_claim::<Brand>(seat, claim).into_badge()
    }

    /// The claim of a token of this lock goes to `seat`. It takes no memory.
    pub fn join_token(&self, seat: &mut Seat<S>, token: Token<S::Entry>)
        requires seat { IsIdleAt self.now.id seat.old }
        requires lock { token.table_id ≡ self.now.id }
        requires token { (v : View S.Entry) × IsTokenWith v token }
        ensures same { IsSameSeat seat.old seat.new }
        ensures union { TakesIn token seat.old seat.new }
    {
        let other = token.into_seat();
        self.table.shared.join_seat::<ViewJoin>(seat, other);
        self.table.shared.load::<Settle>(seat, DRAWN);
    }
}
