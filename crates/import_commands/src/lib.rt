//! The commands that bring updates into a directory at once.
//!
//! ```text
//! bec import DIR FILE       takes the updates of a bundle into the store of a directory, or makes one of it
//! bec clone FROM DIR        makes a store of what a bundle or another store holds
//! ```
//!
//! [`import`] reads and verifies a whole bundle before it touches the directory; [`clone_bundle`] and [`clone_store`]
//! look first whether the directory has a store, and refuse it where it has one. What is read is put into the directory
//! in one way: taken into its store, all of it or nothing, or into a new store that is made of the text of its schema
//! first. Where a disk fails after that, an empty store of the database stays, into which `import` takes the rest.
#![tactic(auto)]

mod bringing;
mod cloning;
mod contents;
mod importing;
mod laws;
mod making;
mod putting;
mod taking;

pub use bringing::bring;
pub use cloning::{clone_bundle, clone_store};
pub use importing::import;
pub use laws::{put_is_told, taken_are_both};
