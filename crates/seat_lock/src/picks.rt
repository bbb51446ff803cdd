//! What a call picks for its steps, whose tellings cannot read the call's arguments.
ghost use Rattle.std.specs.Prelude.{ℕ, Option};
ghost use Rattle.wc_base.specs.declared.seat.Passage.{Passage};

use std::marker::Brand;
use wc_base::Passage;

// What the lock was opened about.
pub(crate) trait AboutPick<A> {
    ghost about: { Option A };
}

impl<A> AboutPick<A> for Brand {
    ghost use Rattle.std.specs.Prelude.{None};

    ghost about = { None };
}

// The passage that ends.
pub(crate) trait PassagePick<E> {
    ghost passage: { Passage E };
}

impl<E> PassagePick<E> for Brand {
    ghost use Rattle.wc_base.specs.declared.seat.Passage.TheVariants.{Look};

    ghost passage = { Look };
}

// The claim that goes to a token.
pub(crate) trait ClaimPick {
    ghost claim: { ℕ };
}

impl ClaimPick for Brand {
    ghost claim = { 0 };
}
