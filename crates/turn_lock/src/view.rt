//! What the rule of the table knows of each seat.
use std::collections::LinkedList;

/// Where a seat stands in its turn.
pub enum Stage {
    /// It has no ticket.
    Idle,
    /// It has a ticket, and waits until that is served.
    Waiting,
    /// Its ticket is served, and the value lies in the slot.
    Turn,
    /// It has taken the slot.
    Holding,
    /// It has stored the new count, and still has the slot.
    Stored,
    /// Another seat has taken its place.
    Spent,
}

/// What one seat knows. No value of it is made.
pub struct View<E> {
    /// Where it stands in its turn.
    pub stage: Stage,
    /// The ticket that it drew last.
    pub ticket: u64,
    /// The number of the seat: the first ticket that it drew.
    pub number: Option<u64>,
    /// How many turns it had.
    pub acts: u64,
    /// A beginning of the list that it has seen.
    pub seen: LinkedList<E>,
    /// Another one, from a seat that it has met, until it looks.
    pub also: LinkedList<E>,
    /// The numbers of the seats that it has met, and of those that these had met.
    pub others: LinkedList<u64>,
}
