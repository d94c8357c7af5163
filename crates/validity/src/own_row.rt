ghost use Rattle.std.specs.Prelude.{◌≡◌, map, IfOk};
ghost use Rattle.table_model.specs.Verdicts.{named};
ghost use Rattle.validity.specs.Asked.{own_row};

use std::alloc::{AllocError, Global};
use update_model::{Node, RowEntry, RowName, UpdateId, Value, ValueList};

/// A row that an operation of the update inserts.
#[derive(Drop)]
pub(crate) struct OwnRow {
    /// Its name: the update's id and the number of the operation.
    pub(crate) name: RowName,
    /// The row, in which each reference to a row of the update is that row's name.
    pub(crate) entry: RowEntry,
}

/// The row that the operation with this number inserts.
pub(crate) fn own_row(
    alloc: Global,
    node: &Node,
    number: u16,
    table: u8,
    values: &[Value],
) -> Result<OwnRow, AllocError>
    ensures { IfOk result (λ row. row ≡ own_row node.now number table values.now) }
{
    let values = named_values(alloc, node.id, values)?;
    Ok(OwnRow {
        name: RowName {
            update: node.id,
            index: number,
        },
        entry: RowEntry {
            table,
            author: node.author,
            values,
        },
    })
}

/// The values as they stand in a table.
fn named_values(alloc: Global, id: UpdateId, values: &[Value]) -> Result<ValueList, AllocError>
    ensures { IfOk result (λ list. list ≡ map (named id) values.now) }
{
    let mut list = Vec::with_capacity(alloc, values.len())?;
    for value in values {
        list.push_reserved(named(alloc, id, value)?);
    }
    Ok(ValueList::from_vec(list))
}

/// A value as it stands in a table: a reference to a row of the update is that row's name.
fn named(alloc: Global, id: UpdateId, value: &Value) -> Result<Value, AllocError>
    ensures { IfOk result (λ value'. value' ≡ named id value.now) }
{
    match value {
        Value::Own(index) => Ok(Value::Row(RowName {
            update: id,
            index: *index,
        })),
        _ => value.copy(alloc),
    }
}
