//! Updates that are checked: spelled, of the right database, by a listed author, and signed.
//!
//! [`check`] takes bytes and answers a [`Checked`], or the one reason why there is none. A `Checked` keeps by its
//! type that its bytes spell an update, that its id is theirs, and that its author signed it (RFC 8554), so nothing
//! above this crate verifies a signature again. Whether it is also under a rule (its database is the rule's and its
//! author is listed there) depends on the rule, and [`Checked::is_under`] tells it.
//!
//! ```text
//! let rule = DbRule { database, authors };
//! let update = check(alloc, &rule, bytes)?;
//! update.author();                        // whose key it is, and who signed it
//! update.body(alloc)?;                    // what its author signed, read again from the bytes
//! update.node(alloc)?;                    // what tables see of it
//! ```
//!
//! Where the rule is to come from the bytes, as the first record of a stream sets it, [`update_codec::spelled`] and
//! [`check_spelled`] are the two halves of `check`.
//!
//! A [`Holder`] is whoever keeps such updates: a closed list under a rule that grows by whole batches. What exchanges
//! updates between two of them knows only this trait.
//!
//! It keeps no graph (`hash_graph`), and does not look at whether predecessors are known.
#![tactic(auto)]

mod check_error;
mod checked_list;
mod checked_update;
mod checking;
mod holder;
mod laws;

pub use check_error::{CheckError, CheckFault};
pub use checked_list::CheckedList;
pub use checked_update::Checked;
pub use checking::{check, check_spelled};
pub use holder::{CommitFault, Committed, Holder};
pub use laws::{front_of_members, no_cause, one_cause};
