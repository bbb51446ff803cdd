//! A stock of claims behind a lock: each is minted, goes from seat to seat, and is spent once.
ghost use Rattle.std.specs.Prelude.{◌≡◌, ℕ, List, MatchBool, IsTrue, cond};
ghost use Rattle.wc_base.specs.declared.seat.Passage.TheVariants.{Made};
ghost use Rattle.seat_lock.specs.Claims.{mint_count};
ghost use Rattle.seat_lock.specs.Logs.{Has};
ghost use Rattle.seat_lock.specs.Passages.{IsUnion, TakesIn};
ghost use Rattle.seat_lock.specs.Seats.{IsSameSeat, IsIdleAt, Becomes, less_claim};
ghost use Rattle.wc_base.specs.Views.{IsTokenWith, token_view};
ghost use Rattle.wc_base.specs.declared.seat.View.{View};
ghost use Rattle.lock_tests.specs.declared.stock.Order.{Order};
ghost use Rattle.lock_tests.specs.declared.stock.Order.TheVariants.{Mint, Spend};
ghost use Rattle.lock_tests.specs.Stock.{mints_claim, claim_spent, MintsOrLooks, Passed, EndsInSpend, Rests};

use seat_lock::{Passage, Seat, SeatLock, Token, Told};
use std::snapshot::Snapshot;
use std::sync::Wait;

/// A claim is minted, or the one with this number is spent.
#[derive(Drop, Clone, Copy, PartialEq, Eq, Debug)]
pub enum Order {
    Mint,
    Spend(u64),
}

/// How many claims were minted.
#[derive(Drop)]
pub struct Stock {
    pub minted: u64,
}

impl Told for Stock {
    type Entry = Order;

    type About = ();

    ghost mints = { mints_claim };

    ghost spends = { claim_spent };

    ghost tells = { λ _ stock log. stock.minted ≡ mint_count mints_claim claim_spent log };
}

/// One passage, which mints a claim and answers its number. None where there are no more numbers.
pub fn mint<R: Wait>(rt: &R, lock: &SeatLock<Stock>, seat: &mut Seat<Stock>) -> Option<u64>
    requires { IsIdleAt lock.now.id seat.old }
    ensures same { IsSameSeat seat.old seat.new }
    ensures claim { MintsOrLooks result seat.old seat.new }
{
    let mut held = lock.enter(rt, seat);
    let stock = held.state();
    let claim = stock.minted;
    if claim == u64::MAX {
        lock.leave(seat, held, Passage::Look);
        return None;
    }
    stock.minted = claim + 1;
    lock.leave(seat, held, Passage::Made(Snapshot::of(&Order::Mint)));
    Some(claim)
}

/// One passage, which spends a claim of the seat.
pub fn spend<R: Wait>(rt: &R, lock: &SeatLock<Stock>, seat: &mut Seat<Stock>, claim: u64)
    requires seat { IsIdleAt lock.now.id seat.old }
    requires claim { Has claim seat.old.me.0.claims }
    ensures same { IsSameSeat seat.old seat.new }
    ensures passage { Passed (Made (Spend claim)) seat.old seat.new }
{
    let held = lock.enter(rt, seat);
    lock.leave(
        seat,
        held,
        Passage::Made(Snapshot::of(&Order::Spend(claim))),
    );
}

/// A claim goes from one seat to another by a token.
pub fn hand_over(lock: &SeatLock<Stock>, from: &mut Seat<Stock>, to: &mut Seat<Stock>, claim: u64)
    requires from { IsIdleAt lock.now.id from.old }
    requires to { IsIdleAt lock.now.id to.old }
    requires claim { Has claim from.old.me.0.claims }
    ensures from { Becomes (less_claim claim from.old.me.0) from.old from.new }
    ensures same { IsSameSeat to.old to.new }
    ensures to { IsUnion to.old.me.0 (token_view claim from.old.me.0) to.new }
{
    let token = lock.cut_token(from, claim);
    lock.join_token(to, token);
}

/// A token of one of two locks goes back to the seat of its lock.
pub fn put_back(
    one: &SeatLock<Stock>,
    other: &SeatLock<Stock>,
    mine: &mut Seat<Stock>,
    theirs: &mut Seat<Stock>,
    token: Token<Order>,
    is_mine: bool,
)
    requires mine { IsIdleAt one.now.id mine.old }
    requires theirs { IsIdleAt other.now.id theirs.old }
    requires lock { token.table_id ≡ cond is_mine one.now.id other.now.id }
    requires token { (v : View Order) × IsTokenWith v token }
    ensures mine { MatchBool is_mine (TakesIn token mine.old mine.new) (mine.new ≡ mine.old) }
    ensures theirs { MatchBool is_mine (theirs.new ≡ theirs.old) (TakesIn token theirs.old theirs.new) }
{
    if is_mine {
        one.join_token(mine, token);
    } else {
        other.join_token(theirs, token);
    }
}

/// Mints a claim with one seat, hands it to another, and spends it there. False where there are no more numbers.
pub fn mint_and_spend<R: Wait>(
    rt: &R,
    lock: &SeatLock<Stock>,
    first: &mut Seat<Stock>,
    second: &mut Seat<Stock>,
) -> bool
    requires first { IsIdleAt lock.now.id first.old }
    requires second { IsIdleAt lock.now.id second.old }
    ensures first { Rests first.old first.new }
    ensures second { Rests second.old second.new }
    ensures spend { IsTrue result → EndsInSpend second.new }
{
    let Some(claim) = mint(rt, lock, first) else {
        return false;
    };
    hand_over(lock, first, second, claim);
    spend(rt, lock, second, claim);
    true
}
