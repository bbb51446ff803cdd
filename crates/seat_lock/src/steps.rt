//! The kinds of step on a lock's words, by what each tells its seat.
ghost use Rattle.wc_base.specs.Views.{token_view};
ghost use Rattle.seat_lock.specs.Seats.{less_part, one_part, union_view, empty_view, less_claim};
ghost use Rattle.seat_lock.specs.Steps.{TakesNumber, Settles, Draws, TakesTurn, Publishes, tells_by};

use crate::picks::{AboutPick, ClaimPick, PassagePick};
use crate::told::Told;
use atomic_table::{Join, Play, Split};
use std::marker::PhantomData;
use wc_base::View;

// A seat draws a ticket, which is word 0 before it rises by 1.
pub(crate) struct Draw;

impl<S, E> Play<Option<S>, View<E>> for Draw {
    ghost then = { Draws };
}

// A seat looks whether word 1 is its ticket, and takes the value if it is.
pub(crate) struct Turn<S, W> {
    of: PhantomData<S>,
    picks: PhantomData<W>,
}

impl<S: Told, W: AboutPick<S::About>> Play<Option<S>, View<S::Entry>> for Turn<S, W> {
    ghost then = { TakesTurn S.mints S.spends (tells_by S.tells W.about) };
}

// A seat gives the value back and ends its passage: word 1 rises by 1.
pub(crate) struct Publish<S, W> {
    of: PhantomData<S>,
    picks: PhantomData<W>,
}

impl<S: Told, W: PassagePick<S::Entry>> Play<Option<S>, View<S::Entry>> for Publish<S, W> {
    ghost then = { Publishes S.mints S.spends W.passage };
}

// One part of a seat becomes a seat, which has no number until its next step.
pub(crate) struct PartSplit;

impl<E> Split<View<E>> for PartSplit {
    ghost left = { less_part };

    ghost right = { one_part };
}

// A new seat takes its number.
pub(crate) struct Number;

impl<S, E> Play<Option<S>, View<E>> for Number {
    ghost then = { TakesNumber };
}

// One claim of a seat becomes a token.
pub(crate) struct ClaimSplit<W> {
    picks: PhantomData<W>,
}

impl<E, W: ClaimPick> Split<View<E>> for ClaimSplit<W> {
    ghost left = { less_claim W.claim };

    ghost right = { token_view W.claim };
}

// A seat takes in another seat or a token. It learns of what the two have in common at its next step.
pub(crate) struct ViewJoin;

impl<E> Join<View<E>> for ViewJoin {
    ghost both = { union_view };

    ghost spent = { empty_view };
}

// A seat that took in another one is idle again.
pub(crate) struct Settle;

impl<S, E> Play<Option<S>, View<E>> for Settle {
    ghost then = { Settles };
}
