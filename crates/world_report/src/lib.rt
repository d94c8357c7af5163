//! The report of a world: what became of the events of a script, and what its replicas and sessions have come to.
//!
//! Everything is printed from plain numbers and words, a line each:
//!
//! ```text
//! line 9 none
//! line 12 refused 4
//! replica 0 updates 2 heads 2 rows 2 0 void 0
//! replica 1 down
//! session 0 done done
//! session 1 peer 9
//! replica 0 doubled 0
//! ```
//!
//! What is printed is a function of what is shown (specs/Reports).
#![tactic(auto)]

mod printing;
mod shown;

pub use printing::{push_doubled, push_missed, push_replicas, push_sessions};
pub use shown::{Counts, Missed, ShownEnd, ShownReplica, ShownSession};
