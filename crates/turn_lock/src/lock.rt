//! The lock.
ghost use Rattle.std.specs.Prelude.{◌≡◌, ◌≢◌, ◌⊎◌, ℕ, ◌+◌, ◌<◌, ◌≤◌, ◌^◌, ◌%◌, [], ◌∷◌, ◌++◌, List, Option, Some, None};
ghost use Rattle.std.specs.Prelude.{IfOk, IfErr, All, length, drop};
ghost use mathlib.Core.List.{IsPrefix};
ghost use Rattle.atomic_table.specs.Seated.{TableId};
ghost use Rattle.turn_lock.specs.declared.view.Stage.TheVariants.{Idle, Waiting, Turn};
ghost use Rattle.turn_lock.specs.Numbers.{AreApart};
ghost use Rattle.turn_lock.specs.Seats.{numbers_of};
ghost use Rattle.turn_lock.specs.Turns.{MadeBy, drawing, at_stage};

use crate::kept::Kept;
use crate::plays::{Compare, Draw, Look, Pair, Pass, Store, Take, Twin};
use crate::rule::{Board, COUNT, Chair, LAST, NEXT, SERVED};
use crate::seat::{Held, Seat};
use atomic_table::Table;
use crossbeam_utils::Backoff;
use std::alloc::{AllocError, Global};
use std::marker::Model;
use std::snapshot::Snapshot;
use std::sync::Wait;

/// There was no memory. What the call took comes back.
#[derive(Drop)]
pub struct Back<X> {
    /// What was refused.
    pub why: AllocError,
    /// What the call took.
    pub back: X,
}

/// A value that one caller has at a time, in the order of the tickets that they draw. Contracts see which lock it is.
#[derive(Drop)]
pub struct TurnLock<T: Kept> {
    board: Board<T>,
}

impl<T: Kept> Model for TurnLock<T> {
    ghost Value = { TableId };

    ghost view = { λ l. l.board.shared.table_id };

    ghost invariant = { λ l. (l.board.shared.table_id.words ≡ 3) × (l.board.shared.table_id.slots ≡ 1) };
}

impl<T: Kept> TurnLock<T> {
    /// A lock of this value, and the first seat, which has seen the whole list.
    pub fn new(alloc: Global, value: T) -> Result<(TurnLock<T>, Seat<T>), Back<T>>
        requires { All (λ e. T.maker e ≡ None) (T.list value) }
        ensures ok { IfOk result (λ r. r.1 ≡ record {
          lock = r.0;
          seen = T.list value;
          number = None;
          acts = 0;
          others = [];
        }) }
        ensures err { IfErr result (λ b. b.back ≡ value) }
    {
        let mut slots = Vec::new(alloc);
        if let Err(why) = slots.reserve(1) {
            slots.destroy_empty();
            return Err(Back { why, back: value });
        }
        let about = Snapshot::of(&value);
        let count = value.count();
        slots.push_reserved(Some(value));
        match Table::new(alloc, &[0, 0, count], slots, &about) {
            Ok((board, chair)) => Ok((
                TurnLock { board },
                Seat {
                    chair,
                    number: None,
                    acts: 0,
                },
            )),
            Err(refused) => {
                let mut slots = refused.slots;
                let back = slots.pop().unwrap().unwrap();
                slots.destroy_empty();
                Err(Back {
                    why: AllocError,
                    back,
                })
            }
        }
    }

    /// Two seats that have seen as much. The first has the number and the acts of the one that was given.
    pub fn split(&self, seat: Seat<T>) -> Result<(Seat<T>, Seat<T>), Back<Seat<T>>>
        requires { seat.lock ≡ self.now }
        ensures ok { IfOk result (λ r. (r.0 ≡ seat)
            × (r.1 ≡ record { lock = seat.lock; seen = seat.seen; number = None; acts = 0; others = [] })) }
        ensures err { IfErr result (λ b. b.back ≡ seat) }
    {
        let Seat {
            mut chair,
            number,
            acts,
        } = seat;
        let other = self.board.shared.split_seat::<Twin>(&mut chair);
        Ok((
            Seat {
                chair,
                number,
                acts,
            },
            Seat {
                chair: other,
                number: None,
                acts: 0,
            },
        ))
    }

    /// One seat that has seen what both have seen, with the number and the acts of the first. What one has seen begins
    /// what the other has seen. The numbers of all seats that have met in it are different ones.
    pub fn meet(&self, a: Seat<T>, b: Seat<T>) -> Result<Seat<T>, Back<(Seat<T>, Seat<T>)>>
        requires locks { (a.lock ≡ self.now) × (b.lock ≡ self.now) }
        ensures seat { IfOk result (λ s. (s.lock ≡ a.lock) × (s.number ≡ a.number) × (s.acts ≡ a.acts)) }
        ensures seen { IfOk result (λ s. IsPrefix a.seen s.seen × IsPrefix b.seen s.seen
            × ((s.seen ≡ a.seen) ⊎ (s.seen ≡ b.seen))) }
        ensures others { IfOk result (λ s. s.others ≡ a.others ++ numbers_of b) }
        ensures apart { IfOk result (λ s. AreApart (numbers_of s)) }
        ensures err { IfErr result (λ e. (e.back.0 ≡ a) × (e.back.1 ≡ b)) }
    {
        let Seat {
            mut chair,
            number,
            acts,
        } = a;
        let Seat {
            chair: other,
            number: _,
            acts: _,
        } = b;
        self.board.shared.join_seat::<Pair>(&mut chair, other);
        self.board.shared.load::<Compare>(&mut chair, COUNT);
        Ok(Seat {
            chair,
            number,
            acts,
        })
    }

    /// Draws the next ticket.
    fn draw<R: Wait>(&self, rt: &R, chair: &mut Chair<T>) -> u64
        requires lock { chair.old.table_id ≡ self.now }
        requires stage { chair.old.me.0.stage ≡ Idle }
        ensures lock { (chair.new.table_id ≡ chair.old.table_id) × (chair.new.id ≡ chair.old.id) }
        ensures ticket { (chair.new.me ≡ (drawing chair.old.me.0 result, chair.old.me.1)) × (result < 2 ^ 63) }
    {
        let shared = &self.board.shared;
        let backoff = Backoff::new();
        let mut next = shared.peek(NEXT);
        for _ in rt.forever() {
            if next < LAST {
                let found = shared.compare_exchange::<Draw>(chair, NEXT, next, next + 1);
                if found == next {
                    return next;
                }
                next = found;
                backoff.spin();
            } else {
                next = shared.peek(NEXT);
                backoff.snooze();
            }
        }
        unreachable!()
    }

    /// Waits until the ticket is served: at first awake, and asleep where that takes long.
    fn wait_for<R: Wait>(&self, rt: &R, chair: &mut Chair<T>, ticket: u64)
        requires lock { chair.old.table_id ≡ self.now }
        requires stage { (chair.old.me.0.stage ≡ Waiting) × (chair.old.me.0.ticket ≡ ticket) }
        ensures lock { (chair.new.table_id ≡ chair.old.table_id) × (chair.new.id ≡ chair.old.id) }
        ensures turn { (chair.new.me ≡ (at_stage Turn chair.old.me.0, chair.old.me.1))
            × (chair.old.me.0.acts ≤ ticket) }
    {
        let backoff = Backoff::new();
        for _ in rt.forever() {
            let served = self.board.shared.load::<Look>(chair, SERVED);
            if served == ticket {
                return;
            }
            if backoff.is_completed() {
                self.board.shared.park(rt, SERVED, low_half(served));
            } else {
                backoff.snooze();
            }
        }
        unreachable!()
    }

    /// Waits for a turn of this seat, and takes the value. Its list begins with what the seat has seen, and no entry is
    /// of this act.
    pub fn take<R: Wait>(&self, rt: &R, seat: Seat<T>) -> (Held<T>, T)
        requires { seat.lock ≡ self.now }
        ensures lock { result.0.lock ≡ seat.lock }
        ensures value { T.list result.1 ≡ result.0.taken }
        ensures seen { IsPrefix seat.seen result.0.taken }
        ensures number { (n : ℕ) → seat.number ≡ Some n → result.0.seat ≡ n }
        ensures act { result.0.act ≡ seat.acts + 1 }
        ensures others { result.0.others ≡ seat.others }
        ensures unused { All (λ e. T.maker e ≢ Some (result.0.seat, result.0.act)) result.0.taken }
        ensures alone { All (λ e. (act : ℕ) → T.maker e ≢ Some (result.0.seat, act))
            (drop (length seat.seen) result.0.taken) }
    {
        let Seat {
            mut chair,
            number,
            acts,
        } = seat;
        let ticket = self.draw(rt, &mut chair);
        self.wait_for(rt, &mut chair, ticket);
        let shared = &self.board.shared;
        shared.load::<Take<T>>(&mut chair, SERVED);
        let value = shared.exchange(&mut chair, 0, None).unwrap();
        let held = Held {
            chair,
            number: number.unwrap_or(ticket),
            act: acts + 1,
            ticket,
        };
        (held, value)
    }

    /// Gives the value back, to whose list this act has added entries of its own.
    pub fn give(&self, held: Held<T>, value: T) -> Seat<T>
        requires lock { held.lock ≡ self.now }
        requires added { (new : List T.Entry) × (T.list value ≡ held.taken ++ new)
            × MadeBy T.maker held.seat held.act new }
        ensures { result ≡ record {
          lock = held.lock;
          seen = T.list value;
          number = Some held.seat;
          acts = held.act;
          others = held.others;
        } }
    {
        let Held {
            mut chair,
            number,
            act,
            ticket,
        } = held;
        let shared = &self.board.shared;
        let count = value.count();
        match shared.exchange(&mut chair, 0, Some(value)) {
            None => {}
            Some(_) => unreachable!(),
        }
        shared.store::<Store<T>>(&mut chair, COUNT, count);
        shared.store::<Pass>(&mut chair, SERVED, ticket + 1);
        if shared.peek(NEXT) > ticket + 1 {
            shared.wake_all(SERVED);
        }
        Seat {
            chair,
            number: Some(number),
            acts: act,
        }
    }

    /// Waits for a turn of this seat, and ends the lock. The value's list begins with what the seat has seen.
    pub fn end<R: Wait>(self, rt: &R, seat: Seat<T>) -> T
        requires { seat.lock ≡ self }
        ensures { IsPrefix seat.seen (T.list result) }
    {
        let Seat {
            mut chair,
            number: _,
            acts: _,
        } = seat;
        let ticket = self.draw(rt, &mut chair);
        self.wait_for(rt, &mut chair, ticket);
        let TurnLock { board } = self;
        let mut closed = board.close_with(chair);
        let value = closed.take(0);
        closed.free();
        value.unwrap()
    }
}

/// The low 32 bits of a word, by which its sleepers see that it changed.
fn low_half(word: u64) -> u32
    ensures { result ≡ word % 2 ^ 32 }
{
    (word & u64::from(u32::MAX)) as u32
}
