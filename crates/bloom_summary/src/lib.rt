//! A summary of many update ids in few bits: whether it may have an id is answered at once, and wrongly at times.
//!
//! A summary is a Bloom filter. It has ten bits for each id, of which every id sets seven; an id whose seven bits are
//! all set is a member. So each id of the list is a member, and of other ids about one in a hundred is one too. Whoever
//! chooses ids freely can make others members: a summary may leave out work, and proves nothing.
//!
//! ```text
//! let summary = Summary::of(alloc, ids)?;
//! send(summary.bytes());
//! let theirs = Summary::from_bytes(alloc, received)?;
//! if !theirs.member(&id) { .. }           // the id is not among theirs
//! ```
//!
//! It knows no graph and removes no id.
#![tactic(auto)]

mod bits;
mod laws;
mod limits;
mod summary;

pub use laws::{members_are_found, one_summary};
pub use limits::MAX_SUMMARY_BYTES;
pub use summary::Summary;
