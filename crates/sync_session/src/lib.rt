//! One end of a session: it takes the peer's frames one by one, adds what comes to its holder, and says what is to be
//! sent.
//!
//! The holder is any `Holder` of `update_check`. [`Session::start`] begins, and [`Session::step`] takes a frame. What
//! each does is what the rules of `session_rules` say, on the list that the holder has at that moment. Between two
//! calls the list may grow.
//!
//! ```text
//! let (mut session, out) = Session::start(alloc, &holder, Role::Initiator, database, node, recalled)?;
//! loop {
//!     ..                                                  // out.hello, out.send and out.turn go to the peer, in this order
//!     let out = session.step(alloc, &mut holder, frame)?;
//!     if out.end.is_some() { break; }
//! }
//! let ids = session.remembered(alloc)?;
//! ```
//!
//! It reads no bytes (see `sync_frames`) and checks no update (see `update_check`). It carries nothing between two
//! ends.
#![tactic(auto)]

mod answers;
mod carrying;
mod checked_frame;
mod gathering;
mod greeting;
mod hello;
mod ids;
mod laws;
mod lookup;
mod needs;
mod out;
mod pair;
mod pending;
mod reading;
mod session;
mod sought;
mod start;
mod step;
mod taking;
mod turn;

pub use checked_frame::CheckedFrame;
pub use laws::{a_stopped_run_is_over, belongs_when_grown, one_run_of_a_pair};
pub use out::Out;
pub use pair::{PairEnd, PairStart, sync_pair};
pub use session::Session;
