//! The rule of the table: word 0 is the next ticket, word 1 the one that is served, word 2 the number of entries.
use crate::kept::Kept;
use crate::view::View;
use atomic_table::{Table, TableRule};
use std::alloc::Global;
use std::snapshot::Snapshot;

/// The word of the next ticket.
pub const NEXT: usize = 0;

/// The word of the ticket that is served.
pub const SERVED: usize = 1;

/// The word of the number of entries.
pub const COUNT: usize = 2;

/// The tickets are below it. A `take` after the last waits for ever.
pub const LAST: u64 = 1 << 63;

/// The rule of the turns.
pub struct InTurn;

impl<T: Kept> TableRule<Option<T>, View<T::Entry>, Snapshot<T>> for InTurn {
    ghost use Rattle.turn_lock.specs.Turns.{IsInTurn, newcomer};

    ghost holds = { λ _. IsInTurn T.list T.maker };

    ghost first = { λ key. newcomer (T.list key.value) };
}

/// The table of a lock.
pub type Board<T> = Table<Option<T>, View<<T as Kept>::Entry>, Snapshot<T>, InTurn, Global>;

/// A seat at the table.
pub type Chair<T> = atomic_table::Seat<Option<T>, View<<T as Kept>::Entry>>;
