ghost use Rattle.std.specs.Prelude.{◌≡◌, IfOk};

use crate::{RowName, ValueList};
use std::alloc::{AllocError, Global};

/// What an update does to one row.
#[derive(Drop)]
pub enum Op {
    /// Inserts a row, whose name is the update's id and the number of this operation.
    Insert {
        /// The number of the table.
        table: u8,
        /// A value for each column of the table, in order.
        values: ValueList,
    },
    /// Deletes a row.
    Delete {
        /// The row's name.
        row: RowName,
    },
}

impl Op {
    /// An equal operation on memory of its own.
    pub fn copy(&self, alloc: Global) -> Result<Op, AllocError>
        ensures { IfOk result (λ op. op ≡ self.now) }
    {
        Ok(match self {
            Op::Insert { table, values } => Op::Insert {
                table: *table,
                values: values.copy(alloc)?,
            },
            Op::Delete { row } => Op::Delete { row: *row },
        })
    }
}
