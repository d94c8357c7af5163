//! Ancestors in a graph of updates, told by chain clocks.
//!
//! Each member joins a chain: that of its predecessor of least position whose chain ends in it, else a new one. There
//! are at most 64 chains, and a member that would begin a 65th is in none. Each member keeps its clock: for each chain,
//! how many of the chain's members are its proper ancestors. Members of a chain are ancestors of one another, so
//! [`is_ancestor`](update_model::Ancestors::is_ancestor) compares one number with the member's place in its chain. From
//! a member in no chain it goes up over those that name it, until it comes to chains. A clock takes 256 bytes, whatever
//! the graph.
//!
//! ```text
//! let mut ancestry = Ancestry::new(alloc);
//! ancestry.add(&[])?;                           // 0: a root
//! ancestry.add(&[0])?;                          // 1: its child
//! ancestry.is_ancestor(alloc, 0, 1)?;           // true
//! ancestry.since(alloc, 2, &[0])?;              // 1
//! ```
#![tactic(auto)]

mod ancestry;
mod clock;
mod clock_laws;
mod laws;
mod namers;
mod walk;

pub use ancestry::Ancestry;
pub use clock::Clock;
pub use clock_laws::{chains_are_ancestors, clocks_tell_ancestors};
pub use laws::{
    ancestors_go_by_predecessors, ancestors_stay, numbers_grow, numbers_of_a_front,
    places_are_held, walks_are_ancestors,
};
