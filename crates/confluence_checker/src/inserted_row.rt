ghost use Rattle.std.specs.Prelude.{◌≡◌, IfOk, [], ◌∷◌, ◌++◌};

use std::alloc::{AllocError, Global};
use std::marker::Model;
use update_model::{AuthorKey, RowName, ValueList};

/// A row that an update inserted. References to rows of the same update are names of rows like all others.
#[derive(Drop)]
pub(crate) struct InsertedRow {
    /// The row's name.
    pub(crate) name: RowName,
    /// The number of its table.
    pub(crate) table: u8,
    /// Who inserted it.
    pub(crate) author: AuthorKey,
    /// A value for each column, in order.
    pub(crate) values: ValueList,
}

impl Model for InsertedRow {
    ghost use Rattle.table_model.specs.Visible.{TableRow};

    ghost Value = { TableRow };

    ghost view = { λ row. record { name = row.name; table = row.table; author = row.author; values = row.values } };
}

impl InsertedRow {
    /// An equal row on memory of its own.
    pub(crate) fn copy(&self, alloc: Global) -> Result<InsertedRow, AllocError>
        ensures { IfOk result (λ row. row ≡ self.now) }
    {
        Ok(InsertedRow {
            name: self.name,
            table: self.table,
            author: self.author,
            values: self.values.copy(alloc)?,
        })
    }
}

/// Equal rows in the same order.
pub(crate) fn copy_rows(alloc: Global, rows: &[InsertedRow]) -> Result<Vec<InsertedRow>, AllocError>
    ensures { IfOk result (λ copies. copies.items ≡ rows.now) }
{
    let mut copies = Vec::with_capacity(alloc, rows.len())?;
    for row in rows {
        copies.push(row.copy(alloc)?)?;
    }
    Ok(copies)
}
