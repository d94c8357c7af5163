//! The commands of the program `bec` that meet other nodes, over a shelf of directories and a net.
//!
//! ```text
//! bec sync DIR ADDR                  reconciles the store of a directory with the one that is served at an address
//! bec serve DIR ADDR --sessions N    waits at an address, and reconciles the store of a directory over N sessions
//! ```
//!
//! Both wait for others, and `serve` starts threads.
#![tactic(auto)]

mod known;
mod serving;
mod syncing;
mod words;

pub use serving::{Service, serve};
pub use syncing::sync;
