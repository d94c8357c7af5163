//! The heads of a graph that grows: the ids of the members that no member names, kept up as members arrive.
//!
//! A new member is a head, since nothing names it yet, and what it names is a head no longer. So [`Heads::add`]
//! needs neither the graph nor a walk over it, and takes logarithmic time for each predecessor.
//!
//! Of each id it is kept after how many adds it is a head. So [`Heads::cut`] goes back to the first adds without
//! memory, as a commit that is refused must.
//!
//! ```text
//! let mut heads = Heads::new(alloc);
//! heads.add(root, &[])?;                  // the root
//! heads.add(child, &[root])?;             // the child
//! let ids = heads.list(alloc)?;           // rising
//! ```
//!
//! Heads tell two stores whether they hold the same: see [`equal_heads_mean_equal_sets`].
#![tactic(auto)]

mod heads;
mod laws;
mod span;

pub use heads::Heads;
pub use laws::{
    equal_heads_mean_equal_sets, heads_are_few, heads_begin, heads_of_a_front,
    new_ids_were_no_heads, no_heads_no_members, no_members_no_heads, present_heads_are_heads,
};
pub use span::Span;
