//! A lock that gives one value to one caller at a time, in the order of the tickets that they draw, and knows what each
//! caller has seen.
//!
//! The value ([`Kept`]) has a list of entries that grows. A caller has a [`Seat`], which knows a beginning of the list.
//! In its turn it has the value, whose list begins with what the seat has seen; it gives the value back with entries of
//! its own behind.
//!
//! ```text
//! let (lock, first) = TurnLock::new(alloc, value)?;
//! let (first, second) = lock.split(first)?; // for another thread
//! let (held, value) = lock.take(rt, first); // waits for its turn
//! let first = lock.give(held, value);
//! let both = lock.meet(first, second)?;
//! let value = lock.end(rt, both);
//! ```
//!
//! The three words and the slot of the lock change only by the steps of a rule (specs/Turns): a ticket is drawn once, a
//! turn is passed by the seat that has it, after the value lies in the slot again, and no seat forgets what it saw.
#![tactic(auto)]

mod kept;
mod lock;
mod plays;
mod rule;
mod seat;
mod view;

pub use kept::Kept;
pub use lock::{Back, TurnLock};
pub use seat::{Held, Seat};
