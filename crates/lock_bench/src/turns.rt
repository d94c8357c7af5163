//! Threads that take turns at a sum.

ghost use Rattle.std.specs.Prelude.{◌≡◌, ℕ, List, [], None};

use std::sync::Wait;
use std::thread::{Threads, join};
use turn_lock::{Kept, Seat, TurnLock};

/// A sum, with no entries.
#[derive(Drop)]
pub struct Sum {
    sum: u64,
}

impl Kept for Sum {
    type Entry = u64;

    ghost list = { λ _. [] };

    ghost maker = { λ _. None };

    fn count(&self) -> u64 {
        0
    }
}

impl Sum {
    /// Nothing.
    pub fn new() -> Sum {
        Sum { sum: 0 }
    }

    /// What was added.
    pub fn sum(&self) -> u64 {
        self.sum
    }

    fn add_one(&mut self) {
        self.sum = self.sum.wrapping_add(1);
    }
}

/// Takes so many turns, and adds one in each.
pub fn take_turns<R: Wait>(
    rt: &R,
    lock: &TurnLock<Sum>,
    mut seat: Seat<Sum>,
    count: u32,
) -> Seat<Sum>
    requires { seat.lock ≡ lock.now }
    ensures { result.lock ≡ lock.now }
{
    for _ in 0..count {
        let (held, mut sum) = lock.take(rt, seat);
        sum.add_one();
        seat = lock.give(held, sum);
    }
    seat
}

/// One seat in the place of two.
fn meet(lock: &TurnLock<Sum>, a: Seat<Sum>, b: Seat<Sum>) -> Seat<Sum>
    requires a { a.lock ≡ lock.now }
    requires b { b.lock ≡ lock.now }
    ensures { result.lock ≡ lock.now }
{
    match lock.meet(a, b) {
        Ok(seat) => seat,
        Err(refused) => refused.back.0,
    }
}

/// Takes so many turns on each of two threads.
pub fn two<R: Threads + Wait + Sync>(
    rt: &R,
    lock: &TurnLock<Sum>,
    seat: Seat<Sum>,
    count: u32,
) -> Seat<Sum>
    requires { seat.lock ≡ lock.now }
    ensures { result.lock ≡ lock.now }
{
    match lock.split(seat) {
        Ok((first, second)) => {
            let (a, b) = join(
                rt,
                ||
                    requires { first.lock ≡ lock.now }
                { take_turns(rt, lock, first, count) },
                ||
                    requires { second.lock ≡ lock.now }
                { take_turns(rt, lock, second, count) },
            );
            meet(lock, a, b)
        }
        Err(refused) => refused.back,
    }
}

/// Takes so many turns on each of four threads.
pub fn four<R: Threads + Wait + Sync>(
    rt: &R,
    lock: &TurnLock<Sum>,
    seat: Seat<Sum>,
    count: u32,
) -> Seat<Sum>
    requires { seat.lock ≡ lock.now }
    ensures { result.lock ≡ lock.now }
{
    match lock.split(seat) {
        Ok((first, second)) => {
            let (a, b) = join(
                rt,
                ||
                    requires { first.lock ≡ lock.now }
                { two(rt, lock, first, count) },
                ||
                    requires { second.lock ≡ lock.now }
                { two(rt, lock, second, count) },
            );
            meet(lock, a, b)
        }
        Err(refused) => refused.back,
    }
}

/// Takes so many turns on each of eight threads.
pub fn eight<R: Threads + Wait + Sync>(
    rt: &R,
    lock: &TurnLock<Sum>,
    seat: Seat<Sum>,
    count: u32,
) -> Seat<Sum>
    requires { seat.lock ≡ lock.now }
    ensures { result.lock ≡ lock.now }
{
    match lock.split(seat) {
        Ok((first, second)) => {
            let (a, b) = join(
                rt,
                ||
                    requires { first.lock ≡ lock.now }
                { four(rt, lock, first, count) },
                ||
                    requires { second.lock ≡ lock.now }
                { four(rt, lock, second, count) },
            );
            meet(lock, a, b)
        }
        Err(refused) => refused.back,
    }
}
