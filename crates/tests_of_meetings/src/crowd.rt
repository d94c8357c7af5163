//! Eight threads whose seats split and meet while they take turns.

ghost use Rattle.std.specs.Prelude.{◌≡◌};

use crate::turns::{Turns, take_turns};
use std::process::Abort;
use std::sync::Wait;
use std::test::Fail;
use std::thread::{Threads, join};
use turn_lock::{Seat, TurnLock};

/// How often eight threads are begun.
const ROUNDS: u32 = 200;

/// How often the seat of each thread splits and meets.
const SPLITS: u32 = 20;

/// How many turns there are from a split to the meeting.
const TURNS: u32 = 3;

/// Two seats in the place of one.
fn split<R: Abort>(rt: &R, lock: &TurnLock<Turns>, seat: Seat<Turns>) -> (Seat<Turns>, Seat<Turns>)
    requires { seat.lock ≡ lock.now }
    ensures first { result.0.lock ≡ lock.now }
    ensures second { result.1.lock ≡ lock.now }
{
    match lock.split(seat) {
        Ok(seats) => seats,
        Err(_) => panic!(rt; "no memory"),
    }
}

/// One seat in the place of two.
fn meet<R: Abort>(rt: &R, lock: &TurnLock<Turns>, a: Seat<Turns>, b: Seat<Turns>) -> Seat<Turns>
    requires a { a.lock ≡ lock.now }
    requires b { b.lock ≡ lock.now }
    ensures { result.lock ≡ lock.now }
{
    match lock.meet(a, b) {
        Ok(seat) => seat,
        Err(_) => panic!(rt; "no memory"),
    }
}

/// Splits a seat again and again. Each time both seats take turns, and then the older one meets the newer, and the
/// other way round.
fn split_and_meet<R: Abort + Wait>(
    rt: &R,
    lock: &TurnLock<Turns>,
    mut seat: Seat<Turns>,
) -> Seat<Turns>
    requires { seat.lock ≡ lock.now }
    ensures { result.lock ≡ lock.now }
{
    for number in 0..SPLITS {
        let (old, new) = split(rt, lock, seat);
        let old = take_turns(rt, lock, old, 1);
        let new = take_turns(rt, lock, new, TURNS - 1);
        seat = if number % 2 == 0 {
            meet(rt, lock, old, new)
        } else {
            meet(rt, lock, new, old)
        };
    }
    seat
}

/// Splits and meets on each of two threads.
fn two<R: Abort + Threads + Wait + Sync>(
    rt: &R,
    lock: &TurnLock<Turns>,
    seat: Seat<Turns>,
) -> Seat<Turns>
    requires { seat.lock ≡ lock.now }
    ensures { result.lock ≡ lock.now }
{
    let (first, second) = split(rt, lock, seat);
    let (a, b) = join(
        rt,
        ||
            requires { first.lock ≡ lock.now }
        { split_and_meet(rt, lock, first) },
        ||
            requires { second.lock ≡ lock.now }
        { split_and_meet(rt, lock, second) },
    );
    meet(rt, lock, a, b)
}

/// Splits and meets on each of four threads.
fn four<R: Abort + Threads + Wait + Sync>(
    rt: &R,
    lock: &TurnLock<Turns>,
    seat: Seat<Turns>,
) -> Seat<Turns>
    requires { seat.lock ≡ lock.now }
    ensures { result.lock ≡ lock.now }
{
    let (first, second) = split(rt, lock, seat);
    let (a, b) = join(
        rt,
        ||
            requires { first.lock ≡ lock.now }
        { two(rt, lock, first) },
        ||
            requires { second.lock ≡ lock.now }
        { two(rt, lock, second) },
    );
    meet(rt, lock, b, a)
}

/// Splits and meets on each of eight threads.
fn eight<R: Abort + Threads + Wait + Sync>(
    rt: &R,
    lock: &TurnLock<Turns>,
    seat: Seat<Turns>,
) -> Seat<Turns>
    requires { seat.lock ≡ lock.now }
    ensures { result.lock ≡ lock.now }
{
    let (first, second) = split(rt, lock, seat);
    let (a, b) = join(
        rt,
        ||
            requires { first.lock ≡ lock.now }
        { four(rt, lock, first) },
        ||
            requires { second.lock ≡ lock.now }
        { four(rt, lock, second) },
    );
    meet(rt, lock, a, b)
}

/// Begins eight threads again and again.
fn rounds<R: Abort + Threads + Wait + Sync>(
    rt: &R,
    lock: &TurnLock<Turns>,
    mut seat: Seat<Turns>,
) -> Seat<Turns>
    requires { seat.lock ≡ lock.now }
    ensures { result.lock ≡ lock.now }
{
    for _ in 0..ROUNDS {
        seat = eight(rt, lock, seat);
    }
    seat
}

#[test]
fn eight_threads_split_and_meet(rt: HostRuntime) -> Result<(), Fail> {
    let alloc = rt.alloc();
    let made = TurnLock::new(
        alloc,
        Turns {
            all: Vec::new(alloc),
        },
    );
    let Ok((lock, seat)) = made else {
        panic!(rt; "no memory")
    };
    let seat = rounds(&rt, &lock, seat);
    let mut turns = lock.end(&rt, seat);
    assert!(rt; turns.all.len() == (ROUNDS * 8 * SPLITS * TURNS) as usize);
    turns.all.sort()?;
    let mut last = (0, 0);
    for (seat, act) in turns.all.iter().copied() {
        // the acts of each seat are 1, 2, 3 and so on
        let wanted = if last.1 > 0 && last.0 == seat {
            last.1
        } else {
            0
        };
        assert!(rt; act.wrapping_sub(1) == wanted);
        last = (seat, act);
    }
    Ok(())
}
