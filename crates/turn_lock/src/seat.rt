//! A seat, and a seat that has the turn.
ghost use Rattle.std.specs.Prelude.{◌≡◌};
ghost use Rattle.turn_lock.specs.Seats.{Known, Turning, IsResting, IsHolding};

use crate::kept::Kept;
use crate::rule::Chair;
use std::marker::Model;

/// A place at a lock. It has seen a beginning of the list, and has a number once it has drawn its first ticket.
#[derive(Drop)]
pub struct Seat<T: Kept> {
    pub(crate) chair: Chair<T>,
    pub(crate) number: Option<u64>,
    pub(crate) acts: u64,
}

impl<T: Kept> Model for Seat<T> {
    ghost Value = { Known T.Entry };

    ghost view = { λ s. record {
      lock = s.chair.table_id;
      seen = s.chair.me.0.seen;
      number = s.number;
      acts = s.acts;
      others = s.chair.me.0.others;
    } };

    ghost invariant = { λ s. IsResting s.chair.me s.number s.acts };
}

/// A seat that has the turn, and the value.
pub struct Held<T: Kept> {
    pub(crate) chair: Chair<T>,
    pub(crate) number: u64,
    pub(crate) act: u64,
    pub(crate) ticket: u64,
}

impl<T: Kept> Model for Held<T> {
    ghost Value = { Turning T.Entry };

    ghost view = { λ h. record {
      lock = h.chair.table_id;
      taken = h.chair.me.0.seen;
      seat = h.number;
      act = h.act;
      others = h.chair.me.0.others;
    } };

    ghost invariant = { λ h. IsHolding h.chair.me h.number h.act h.ticket };
}

impl<T: Kept> Held<T> {
    /// The number of the seat.
    pub fn seat(&self) -> u64
        ensures { result ≡ self.now.seat }
    {
        self.number
    }

    /// The number of this act of the seat, counted from 1.
    pub fn act(&self) -> u64
        ensures { result ≡ self.now.act }
    {
        self.act
    }
}
