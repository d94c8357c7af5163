//! Connections as the database sees them: where they come from, and what goes over each.
//!
//! A [`Link`] is a connection: a source and a sink in one, which counts its own faults. A [`Net`]
//! listens at an address, hands links out that it accepted or dialled, and takes each back when its
//! user is done. It knows how many of its links are out and how many of its calls failed; one that
//! stands for a real network tells nothing of the bytes.
//!
//! ```
//! let mut net = MemNet::new(alloc, links, Vec::new(alloc));
//! let mut link = net.accept()?;
//! let count = link.take(&mut buf)?;
//! link.put(&buf[..count])?;
//! net.put_back(link);
//! ```
//!
//! [`MemLink`] and [`MemNet`] are both in memory, for tests: their calls fail where a test wants it.
//!
//! It opens no socket: the links over TCP stand in `bec_host`. It says nothing of time, so a peer that
//! never answers is not ruled out.
#![tactic(auto)]

mod link;
mod mem_link;
mod mem_net;
mod net;

pub use link::Link;
pub use mem_link::MemLink;
pub use mem_net::MemNet;
pub use net::Net;
