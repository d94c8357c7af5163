//! One replica for many callers.
//!
//! A [`Shared`] is a replica under a turn lock. A caller has a [`Pass`], which knows a beginning of one list: what the
//! replica was at the start, and each update and each fault of the log's disk since, with the seat and the act that
//! added it. Each act has its turn, and answers what the replica answers at that point of the list.
//!
//! ```text
//! let (shared, first) = Shared::new(alloc, replica)?;
//! let (first, second) = shared.split(first)?; // for another thread
//! let acted = shared.make(rt, alloc, first, ops, &mut key, &c);
//! let acted = shared.fetch_some(rt, alloc, acted.pass, &[0]);
//! let acted = shared.session_start(rt, alloc, acted.pass, Role::Responder, recalled);
//! let acted = shared.session_step(rt, alloc, acted.pass, &mut session, frame);
//! let pass = shared.meet(acted.pass, second)?;
//! let replica = shared.end(rt, pass);
//! ```
#![tactic(auto)]

mod acting;
mod acts;
mod entry;
mod laws;
mod limits;
mod shared;
mod stored;

pub use entry::{Entry, Opening, Run};
pub use laws::{acts_see_more, frames_stay, rules_stay, sessions_go_on, stores_stay};
pub use limits::{PIECE_BYTES, PIECE_UPDATES};
pub use shared::{Acted, Pass, Shared};
pub use stored::{Picture, Stored};
