//! What a seat at a lock knows, and the tokens that hold single claims. The locks themselves stand in `seat_lock`.
use atomic_table::Badge;
use std::collections::LinkedList;

/// What one passage through a lock did: it made an entry, or it changed nothing.
#[derive(Drop)]
pub enum Passage<E> {
    /// It made this entry.
    Made(E),
    /// It changed nothing. It is counted, and nobody keeps it.
    Look,
}

/// Where a seat stands. It is for clauses alone: no value of it is made.
pub enum Phase<E> {
    /// A new seat, which has no number yet.
    New,
    /// In no passage.
    Idle,
    /// A claim on its own, with no number and no parts.
    Token,
    /// It drew this ticket.
    Waiting(u64),
    /// Its turn came, with this ticket, and the value stood for this log.
    Holding(u64, LinkedList<(u64, Passage<E>)>),
    /// Two seats were made one: the numbers and the log of each.
    Union(
        LinkedList<u64>,
        LinkedList<(u64, Passage<E>)>,
        LinkedList<u64>,
        LinkedList<(u64, Passage<E>)>,
    ),
    /// Nothing is left of it: it was joined to another seat.
    Empty,
}

/// What a seat or a token knows of its lock. It is for clauses alone: no value of it is made.
pub struct View<E> {
    /// The number that the log has beside each passage of this seat.
    pub number: u64,
    /// Its number, and those of the seats that were joined to it.
    pub numbers: LinkedList<u64>,
    /// The passages that it has seen, each with the number of its seat, from the first one on.
    pub log: LinkedList<(u64, Passage<E>)>,
    /// Its parts, of 2^32.
    pub parts: u64,
    /// The claims that it holds, by their numbers.
    pub claims: LinkedList<u64>,
    /// Where it stands.
    pub phase: Phase<E>,
}

/// One claim at a lock whose entries are of type `E`. It has no bytes, cannot be copied, and does not name the type of
/// the value behind the lock, so that such a value may hold it.
pub type Token<E> = Badge<View<E>>;
