//! The key of a directory: its two parts, taken from a shelf, opened and put back.
//!
//! A directory has a part Key and a part Used where it has a key. [`take_key`] hands them out open, and [`put_key`]
//! puts them back; where the key is refused, every part is in its place again. [`new_key`] makes a key where there is
//! none. [`find_or_make`] is for one part of any kind. Whoever computes the leaves of a key is given, and a
//! [`KeyMaker`] keeps it for those who hand it on.
//!
//! ```text
//! let mut key = take_key(&OneThread, alloc, shelf, dir)?;
//! let signed = key.sign(&c, msg, &mut signature);
//! put_key(shelf, dir, key);
//! ```
//!
//! Its definitions say what a run leaves of a directory: which parts were taken, made or at most read, and that every
//! other part is as it was.
#![tactic(auto)]

mod finding;
mod key;
mod key_refusal;
mod laws;
mod maker;
mod making_key;

pub use finding::find_or_make;
pub use key::{put_key, take_key};
pub use key_refusal::KeyRefusal;
pub use laws::{key_or_not, one_key};
pub use maker::KeyMaker;
pub use making_key::new_key;
