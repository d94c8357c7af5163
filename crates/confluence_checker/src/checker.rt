//! What rows and operations are checked by.

use row_check::{Native, Relation};
use schema::Schema;
use std::alloc::Global;

/// What rows and operations are checked by: a schema and its native checks, and where memory comes from.
#[derive(Drop)]
pub(crate) struct Checker<'a, L: Relation, C> {
    /// Where the memory comes from.
    pub(crate) alloc: Global,
    /// The schema.
    pub(crate) schema: &'a Schema,
    /// The native checks that its lines may name.
    pub(crate) native: &'a Native<L, C>,
}
