//! Sessions over links: one node meets others, each in a thread of its own.
//!
//! [`run_session`] is one session over one link: it reads pieces, completes frames, checks updates, takes turns at the
//! shared replica, and writes what is to be said. [`serve`] accepts links and runs the session of each in a thread of
//! its own.
//!
//! ```text
//! let common = Common { alloc, shared: &shared, rule: &rule, peers: &peers };
//! let (pass, served) = run_session(rt, &common, pass, &mut link, Role::Initiator, Some(name));
//! let all = serve(rt, &common, &mut net, pass, "0.0.0.0:7000", 8);
//! ```
//!
//! No act of the shared replica takes a link: a session that waits for its peer holds nobody else up. Frames are
//! decoded and signatures verified outside the turn.
#![tactic(auto)]

mod common;
mod ending;
mod running;
mod saying;
mod served;
mod served_all;
mod server;
mod session;
mod talk;

pub use common::Common;
pub use ending::Ending;
pub use served::Served;
pub use served_all::{ServedAll, ServedList};
pub use server::serve;
pub use session::run_session;
