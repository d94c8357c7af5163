//! What a session is: two stores tell each other what they hold, until each holds all that the other held.
//!
//! This crate is the rule book of sessions, and no machine. Its specs define a session over plain data: one end
//! (`State`), what one frame does to it (`Steps`), and two ends with the frames on the way between them, while both
//! lists may grow from outside (`Pair`). Its functions are the laws of that definition. They run nothing, and each is
//! proved.
//!
//! An end begins with a Hello: the heads of its store, the heads that it remembers of the peer, and a summary of what
//! it has had since then. Turns alternate. A turn is some updates and a Turn frame, which says whether all of the
//! peer's heads are held, and if not, which updates are asked for.
//!
//! ```text
//! initiator                          responder
//! turn 0   Hello              ->
//!                             <-     Hello, its burst, Turn     turn 1
//! turn 2   its burst, Turn    ->
//!                             <-     what was asked for, Turn   turn 3
//! ```
//!
//! ```text
//! let fault = PeerFault::Unanswered(id);
//! let end = End::Peer(fault);
//! ```
//!
//! It has no bytes of a frame, no store and no code of an end, which stands above it.
#![tactic(auto)]

mod end;
mod laws;
mod limits;
mod peer_fault;
mod role;

pub use end::End;
pub use laws::{correct_ends, turns_are_few, turns_ask_anew, undisturbed_ends_reach_the_union};
pub use limits::{MAX_ITEMS, MAX_NEEDS, MAX_TURNS};
pub use peer_fault::PeerFault;
pub use role::Role;
