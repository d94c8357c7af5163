//! A holder of updates in memory, for tests and measurements of what exchanges updates.
//!
//! A [`MemHolder`] takes no more updates than it was made for, and one of its commits can be made to fail as if a disk
//! did. Nothing of it outlives the program. It keeps no heads and no ancestors: each call that asks for them goes over
//! all updates.
//!
//! ```text
//! let mut holder = MemHolder::new(alloc, rule, 1, Some(2));     // of one update; the third commit fails
//! holder.commit(alloc, batch)?;
//! ```
#![tactic(auto)]

mod adding;
mod holder;
mod id_sets;
mod mem_holder;
mod sweeping;

pub use mem_holder::MemHolder;
