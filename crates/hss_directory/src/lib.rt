//! The two-level key of a directory: a top key there, and a lower key in a directory of its own for each top index that
//! was used.
//!
//! The directory of the lower key that the top index n signs has the top key's name, a dot, and n in decimal. Its parts
//! Key and Used are the lower key's, and its part Peers holds, behind a gate, the top key's signature of it and the
//! key. [`create_hss`] makes a top key, and [`open_hss`] opens it, with its current lower key. [`Hss::sign`] makes
//! seals, which `hss_chain::verify_hss` checks, and [`Hss::close`] puts all parts back.
//!
//! ```text
//! let mut hss = open_hss(&OneThread, alloc, shelf, dir)?;
//! let seal = hss.sign(&OneThread, alloc, shelf, random, msg);
//! hss.close(shelf);
//! ```
#![tactic(auto)]

mod current;
mod fault;
mod hss;
mod laws;
mod lower;
mod making;
mod opening;
mod peers;
mod signing;

pub use fault::HssFault;
pub use hss::{Hss, create_hss, open_hss};
pub use laws::used_peers_stay;
