//! The tables of a set of updates, and whether a counterexample confirms, by the plainest code.
//!
//! What a schema's tables are after a set of updates, which updates are valid, and when a history breaks an invariant
//! are definitions. [`tables_of`] and [`confirms`] compute them word for word: each private function is one of the
//! definitions, and is proved to be equal to it. They are slow, and meant to stand beside faster code, to show what
//! that computes, and to check a counterexample, whose updates are few.
//!
//! ```text
//! is_closed(nodes)                                        // which tables_of asks of a list in the order of arrival
//! tables_of(alloc, &schema, &native, nodes)?
//! confirms(alloc, &schema, &native, &which, &example)?    // whether both sides satisfy it, and both together break it
//! ```
#![tactic(auto)]

mod ancestors;
mod checker;
mod claims;
mod confirming;
mod effects;
mod found;
mod ids;
mod inserted_row;
mod judged_node;
mod judging;
mod laws;
mod least;
mod limits;
mod newness;
mod reasons;
mod references;
mod row_effects;
mod row_lists;
mod searching;
mod table_list;
mod tables;
mod values;
mod verdicts;
mod visibility;

pub use confirming::confirms;
pub use ids::is_closed;
pub use laws::{shared_updates_are_a_base, unconfirmed_is_confluent};
pub use row_lists::RowLists;
pub use table_list::TableList;
pub use tables::tables_of;
