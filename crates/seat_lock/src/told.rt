//! What the value behind a lock tells, and the rule of the lock's words by it.
ghost use Rattle.std.specs.Prelude.{ℕ, List, Bool, Option};
ghost use Rattle.wc_base.specs.declared.seat.Passage.{Passage};

use atomic_table::TableRule;
use std::marker::PhantomData;
use wc_base::{Passage, View};

/// A type of values behind a lock. Its members are for clauses alone, so the value need not keep what they speak of.
pub trait Told {
    /// What a passage may make.
    type Entry;

    /// What is fixed when the lock is opened.
    type About;

    // Whether an entry mints a claim. Claims are numbered from 0, in the order in which they are minted.
    ghost mints: { Self.Entry → Bool };

    // The claim that an entry spends, if it spends one, after a list of entries.
    ghost spends: { List Self.Entry → Self.Entry → Option ℕ };

    // The value stands for a list of passages, each with the number of its seat.
    ghost tells: { Self.About → Self → List (ℕ × Passage Self.Entry) → Type 0 };
}

// The rule of a lock round an `S`.
pub struct LockLaw<S> {
    of: PhantomData<S>,
}

impl<S: Told> TableRule<Option<S>, View<S::Entry>, S::About> for LockLaw<S> {
    ghost use Rattle.seat_lock.specs.Rule.{LockRule};
    ghost use Rattle.seat_lock.specs.Seats.{first_view};

    ghost holds = { λ about. LockRule S.mints S.spends (S.tells about) };

    ghost first = { λ _. first_view };
}
