use bec_disk::{Disk, DiskError};
use row_check::{Checks, Native, Relation};
use thiserror::Error;

/// Why a store is not opened.
#[derive(Clone, Copy, Debug, Error)]
pub enum OpenKind {
    /// A call of one of the disks failed.
    #[error("a disk failed")]
    DiskFault,
    /// The part Schema is absent.
    #[error("there is no store")]
    NoStore,
    /// The part Schema is damaged, its payload has fewer than 32 bytes, or its text is refused or has an invariant that
    /// does not survive merging.
    #[error("the store is damaged")]
    BadSchema,
    /// Memory ran out.
    #[error("out of memory")]
    Memory,
}

/// A store that was not opened: why, and what was handed over.
#[derive(Drop)]
pub struct OpenFault<D: Disk, L: Relation, C: Checks<L>> {
    /// Why it was not opened.
    pub why: OpenKind,
    /// The disk of the part Updates.
    pub updates: D,
    /// The native checks.
    pub native: Native<L, C>,
}
