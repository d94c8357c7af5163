//! Bundles, as commands read them: the text of a schema behind its length, and behind that the updates of a store.
//!
//! ```text
//! let bundle = read_bundle(alloc, &native, &mut input)?;
//! bundle.schema;                          // the schema that it declares, each of whose invariants survives merging
//! bundle.graph;                           // its updates, each of them once
//! ```
//!
//! A bundle is taken whole or refused: the whole of it is read and verified before anything is done with it. What it has
//! and why it is refused stands in specs/Bundles.
#![tactic(auto)]

mod bundle;

pub use bundle::{Bundle, read_bundle};
