ghost use Rattle.std.specs.Prelude.{◌≡◌, IfOk};

use crate::{AuthorKey, ValueList};
use std::alloc::{AllocError, Global};

/// A row as a table holds it: where it stands, who inserted it, and its values.
#[derive(Drop)]
pub struct RowEntry {
    /// The number of the table.
    pub table: u8,
    /// The author of the update that inserted the row.
    pub author: AuthorKey,
    /// A value for each column of the table, in order.
    pub values: ValueList,
}

impl RowEntry {
    /// An equal entry on memory of its own.
    pub fn copy(&self, alloc: Global) -> Result<RowEntry, AllocError>
        ensures { IfOk result (λ entry. entry ≡ self.now) }
    {
        Ok(RowEntry {
            table: self.table,
            author: self.author,
            values: self.values.copy(alloc)?,
        })
    }
}
