//! A store that is open: what a node holds of a database, in memory and on disks.
//!
//! A [`Replica`] is a node's id, the history of its updates (heads, ancestors, tables), and the log that keeps them.
//! [`create`] makes a store where there is none, and [`open_store`] opens one. [`Replica::commit`] takes updates that
//! came from elsewhere, [`Replica::make`] signs an update of operations by a key, and [`Replica::join`] joins the
//! heads. What was answered `Ok` stays, whatever stops the program later.
//!
//! ```text
//! let mut replica = open_store(verifier, alloc, &mut schema, updates, native)?;
//! let committed = replica.commit(alloc, batch)?;       // what waits for predecessors is handed back
//! let id = replica.make(alloc, ops, &mut key, &c)?;    // after all heads, valid, on the disk
//! replica.tables().rows(alloc, 0)?;
//! let (updates, native) = replica.into_parts();
//! ```
//!
//! It opens no files and draws no random bytes: disks are handed over (`bec_disk`), and so are the bytes behind which a
//! message is digested.
#![tactic(auto)]

mod adding;
mod commit;
mod contents;
mod create_fault;
mod creating;
mod drafting;
mod holder;
mod laws;
mod make;
mod make_fault;
mod open_fault;
mod opening;
mod planning;
mod replica;
mod signing;

pub use contents::Contents;
pub use create_fault::{CreateFault, CreateKind};
pub use creating::create;
pub use laws::{one_early_refusal, one_join, one_make};
pub use make_fault::{MakeFault, Side};
pub use open_fault::{OpenFault, OpenKind};
pub use opening::open_store;
pub use replica::Replica;
