//! Turns at one list that threads take, each with a seat of its own.

ghost use Rattle.std.specs.Prelude.{◌≡◌, ◌++◌, ℕ, List, Some, IfOk};
ghost use Rattle.turn_lock.specs.Turns.{MadeBy};

use std::sync::Wait;
use turn_lock::{Held, Kept, Seat, TurnLock};

/// The seats and acts that had a turn.
#[derive(Drop)]
pub(crate) struct Turns {
    pub(crate) all: Vec<(u64, u64)>,
}

impl Kept for Turns {
    type Entry = (u64, u64);

    ghost list = { λ t. t.all.items };

    ghost maker = { λ e. Some e };

    fn count(&self) -> u64 {
        self.all.len() as u64
    }
}

/// Adds an entry of this act, unless there is no memory.
fn add(turns: &mut Turns, held: &Held<Turns>)
    ensures { (new : List (ℕ × ℕ)) × (turns.new.all.items ≡ turns.old.all.items ++ new)
        × MadeBy (λ e. Some e) held.now.seat held.now.act new }
{
    let entry = (held.seat(), held.act());
    let _added = turns.all.push(entry);
}

/// Takes so many turns, and adds an entry in each.
pub(crate) fn take_turns<R: Wait>(
    rt: &R,
    lock: &TurnLock<Turns>,
    mut seat: Seat<Turns>,
    count: u32,
) -> Seat<Turns>
    requires { seat.lock ≡ lock.now }
    ensures { result.lock ≡ lock.now }
{
    for _ in 0..count {
        let (held, mut turns) = lock.take(rt, seat);
        add(&mut turns, &held);
        seat = lock.give(held, turns);
    }
    seat
}
