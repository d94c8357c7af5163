//! What a node remembers of its peers: of each the heads of what both held when they last met.
//!
//! Remembered heads are a hint, by which a later session sends less. So bytes are never refused: what has another form,
//! and no bytes at all, read as no peers ([`read_peers`]). [`Peers::remember`] puts a peer last with the least 4,096 of
//! its ids; of more than 256 peers the one that was remembered longest ago gives way.
//!
//! ```text
//! let mut peers = read_peers(alloc, payload)?;
//! begin(peers.heads_of(&name));
//! peers.remember(alloc, name, ids)?;
//! keep(peers.payload(alloc)?);
//! ```
//!
//! The payload is the number of peers, and of each, oldest first, the name, the number of its ids and the ids, which
//! rise; numbers have two bytes with the high byte first. [`peers_are_read_again`] is the law that what was written is
//! what is read.
//!
//! It knows no disks and no sessions.
#![tactic(auto)]

mod ids;
mod laws;
mod limits;
mod peer;
mod peers;
mod read_error;
mod reading;
mod writing;

pub use laws::peers_are_read_again;
pub use limits::{MAX_HEADS, MAX_PEERS};
pub use peer::Peer;
pub use peers::Peers;
pub use reading::read_peers;
