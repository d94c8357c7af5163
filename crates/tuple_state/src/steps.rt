ghost use Rattle.std.specs.Prelude.{◌≡◌, ◌++◌, IfOk, OnOk, map, reverse};
ghost use Rattle.table_model.specs.Verdicts.{effects_of, named};
ghost use Rattle.tuple_state.specs.State.{dropped_at, inserted_at};
ghost use Rattle.tuple_state.specs.Steps.{name_by, row_made};

use crate::{Dropped, Inserted};
use std::alloc::{AllocError, Global};
use update_model::{AuthorKey, Node, Op, RowEntry, RowName, UpdateId, Value, ValueList};

/// The rows that a valid update at this position inserts, in the order of its operations. Their values are the update's
/// own.
pub(crate) fn inserted_by(
    alloc: Global,
    position: u32,
    node: Node,
) -> Result<Vec<Inserted>, AllocError>
    ensures { IfOk result (λ rows. rows.items ≡ map (inserted_at position) (reverse (effects_of node).inserted)) }
{
    let Node {
        id,
        preds: _,
        author,
        ops,
    } = node;
    let mut rows = Vec::new(alloc);
    let mut number = 0;
    for op in ops.into_vec() {
        add_row(alloc, &mut rows, position, id, author, number, op)?;
        number += 1;
    }
    Ok(rows)
}

/// Adds the row that an operation inserts, if it does.
fn add_row(
    alloc: Global,
    rows: &mut Vec<Inserted>,
    position: u32,
    id: UpdateId,
    author: AuthorKey,
    number: u16,
    op: Op,
) -> Result<(), AllocError>
    ensures { OnOk result (rows.new.items ≡ rows.old.items ++ row_made position id author number op) }
{
    match op {
        Op::Insert { table, values } => {
            let entry = RowEntry {
                table,
                author,
                values: all_named(alloc, id, values)?,
            };
            let name = RowName {
                update: id,
                index: number,
            };
            rows.push(Inserted {
                position,
                name,
                entry,
            })?;
            Ok(())
        }
        Op::Delete { row: _ } => Ok(()),
    }
}

/// The names that a valid update at this position deletes, in the order of its operations.
pub(crate) fn dropped_by(
    alloc: Global,
    position: u32,
    node: &Node,
) -> Result<Vec<Dropped>, AllocError>
    ensures { IfOk result (λ names. names.items ≡ map (dropped_at position) (reverse (effects_of node.now).deleted)) }
{
    let mut names = Vec::new(alloc);
    for op in node.ops.as_slice() {
        add_name(&mut names, position, op)?;
    }
    Ok(names)
}

/// Adds the name that an operation deletes, if it does.
fn add_name(names: &mut Vec<Dropped>, position: u32, op: &Op) -> Result<(), AllocError>
    ensures { OnOk result (names.new.items ≡ names.old.items ++ name_by position op.now) }
{
    match op {
        Op::Insert {
            table: _,
            values: _,
        } => Ok(()),
        Op::Delete { row } => {
            names.push(Dropped {
                position,
                name: *row,
            })?;
            Ok(())
        }
    }
}

/// Values as they stand in a table: a reference to a row of the update with this id is that row's name.
fn all_named(alloc: Global, id: UpdateId, values: ValueList) -> Result<ValueList, AllocError>
    ensures { IfOk result (λ list. list ≡ map (named id) values) }
{
    let values = values.into_vec();
    let mut list = Vec::with_capacity(alloc, values.len())?;
    for value in values {
        list.push(named_value(id, value))?;
    }
    Ok(ValueList::from_vec(list))
}

fn named_value(id: UpdateId, value: Value) -> Value
    ensures { result ≡ named id value }
{
    match value {
        Value::Own(index) => Value::Row(RowName { update: id, index }),
        other => other,
    }
}
