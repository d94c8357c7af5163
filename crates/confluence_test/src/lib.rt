//! The static confluence test: whether each invariant that a schema declares survives merging, and where one does not,
//! a history that breaks it.
//!
//! Two replicas that cannot reach each other both take updates, and later merge. An invariant survives merging where it
//! holds of the union of any two histories of which it holds. [`test`] tells this of a schema before any data exists.
//! Where it refuses, the counterexample has a base that both sides have, and one update of each side.
//! [`refused_is_confirmed`] says of every such answer that both sides satisfy the invariant and both together break it.
//!
//! A counterexample's base inserts rows one after the other, each of which needs nothing but rows before it (the
//! private module `needs`). For a `RESTRICT` it has also a path: rows along which a row vanishes when the one at the
//! end is deleted (`path`).
//!
//! [`take_schema`] reads the text of a schema and tests what it declares.
//!
//! ```text
//! match test(alloc, &schema)? {
//!     Tested::Accepted => ..,
//!     Tested::Refused { which, example } => ..,
//! }
//! ```
#![tactic(auto)]

mod chain;
mod columns;
mod examples;
mod filling;
mod finding;
mod laws;
mod needs;
mod nodes;
mod path;
mod permanence;
mod refusal;
mod scanning;
mod taking;
mod tested;
mod testing;

pub use laws::{
    accepted_is_unlimited, declared_refusal_is_confirmed, refused_is_confirmed, refused_once,
    taken_or_refused,
};
pub use refusal::SchemaRefusal;
pub use taking::take_schema;
pub use tested::Tested;
pub use testing::test;
