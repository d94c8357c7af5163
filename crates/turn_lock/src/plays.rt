//! What each step tells its seat. These types are for the proofs alone.
ghost use Rattle.turn_lock.specs.Turns.{drew, looked, took, stored, passed, met, newcomer, joining, spent};

use crate::kept::Kept;
use crate::view::View;
use atomic_table::{Join, Play, Split};
use std::marker::PhantomData;

/// A ticket is drawn.
pub struct Draw;

impl<S, E> Play<S, View<E>> for Draw {
    ghost then = { drew };
}

/// A look at the ticket that is served.
pub struct Look;

impl<S, E> Play<S, View<E>> for Look {
    ghost then = { looked };
}

/// The slot is taken.
pub struct Take<T> {
    marker: PhantomData<T>,
}

impl<T: Kept> Play<Option<T>, View<T::Entry>> for Take<T> {
    ghost then = { took T.list T.maker };
}

/// The new count is stored.
pub struct Store<T> {
    marker: PhantomData<T>,
}

impl<T: Kept> Play<Option<T>, View<T::Entry>> for Store<T> {
    ghost then = { stored T.list };
}

/// The turn is passed on.
pub struct Pass;

impl<S, E> Play<S, View<E>> for Pass {
    ghost then = { passed };
}

/// A look at the count by a seat that has met another.
pub struct Compare;

impl<S, E> Play<S, View<E>> for Compare {
    ghost then = { met };
}

/// A new seat has seen as much as the one that it is split from.
pub struct Twin;

impl<E> Split<View<E>> for Twin {
    ghost left = { λ v. v };

    ghost right = { λ v. newcomer v.seen };
}

/// A seat that meets another has seen both lists.
pub struct Pair;

impl<E> Join<View<E>> for Pair {
    ghost both = { joining };

    ghost spent = { spent };
}
