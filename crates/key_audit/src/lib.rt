//! Audits of one-time keys: a key that signs two messages under one index has been copied or set back, and gives
//! itself away.
//!
//! A key signs once by each of its leaves (RFC 8554, section 9.2), and its owner's store sees to it. So two updates
//! that one author signed under one index with different messages are a certificate against the key, which anybody
//! can check by themselves: [`confirms_doubled`]. [`find`] lists the one-time keys that signed two messages among the
//! updates of whoever holds some.
//!
//! ```text
//! for double in find(alloc, &store)? {    // rising by the key's bytes and the index
//!     double.key;                         // whose key was used twice
//!     double.index;                       // under which index
//!     double.first;                       // the ids of two updates that show it
//!     double.second;
//! }
//! confirms_doubled(alloc, &first, &second)?;      // Some((key, index)) where the bytes are such a pair
//! ```
//!
//! It prints nothing, and needs no rule: the two updates may be of two databases.
#![tactic(auto)]

mod confirming;
mod doubled;
mod finding;
mod laws;
mod one_time;
mod reading;
mod walk;

pub use confirming::confirms_doubled;
pub use doubled::Doubled;
pub use finding::find;
pub use laws::{found_of_the_set, found_once};
