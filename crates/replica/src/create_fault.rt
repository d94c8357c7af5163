use bec_disk::Disk;
use row_check::{Checks, Native, Relation};
use schema::Schema;
use schema_text::SchemaFault;
use table_model::{Counterexample, Invariant};

/// Why a store is not created. Where there is more than one reason, it is the first in this order.
#[derive(Drop)]
pub enum CreateKind {
    /// The part Schema is not absent.
    NotEmpty,
    /// The text declares no schema, and this is its first fault.
    BadSchema(SchemaFault),
    /// An invariant does not survive merging, and is the first of the schema that does not.
    NotConfluent {
        /// The schema that the text declares.
        schema: Schema,
        /// The invariant.
        which: Invariant,
        /// A history that breaks it.
        example: Counterexample,
    },
    /// A call of one of the disks failed.
    DiskFault,
    /// Memory ran out.
    Memory,
}

/// A store that was not created: why, and what was handed over.
#[derive(Drop)]
pub struct CreateFault<D: Disk, L: Relation, C: Checks<L>> {
    /// Why it was not created.
    pub why: CreateKind,
    /// The disk of the part Updates.
    pub updates: D,
    /// The native checks.
    pub native: Native<L, C>,
}
