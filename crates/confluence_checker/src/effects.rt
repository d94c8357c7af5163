//! What operations do.

ghost use Rattle.std.specs.Prelude.{◌≡◌, ◌<◌, ◌≤◌, ◌^◌, IfOk, length, map};
ghost use Rattle.table_model.specs.Verdicts.{effects_of, named, row_inserted};
ghost use Rattle.confluence_checker.specs.Forms.{after_op};

use crate::inserted_row::InsertedRow;
use crate::row_effects::RowEffects;
use std::alloc::{AllocError, Global};
use update_model::{Node, Op, RowName, UpdateId, Value, ValueList};

/// A value as it stands in a table: a reference to a row of the same update is that row's name.
fn named(alloc: Global, id: UpdateId, value: &Value) -> Result<Value, AllocError>
    ensures { IfOk result (λ new. new ≡ named id value.now) }
{
    match value {
        Value::Own(index) => Ok(Value::Row(RowName {
            update: id,
            index: *index,
        })),
        Value::Null | Value::Int(_) | Value::Text(_) | Value::Flag(_) | Value::Row(_) => {
            value.copy(alloc)
        }
    }
}

/// The same of each value.
fn all_named(alloc: Global, id: UpdateId, values: &[Value]) -> Result<ValueList, AllocError>
    ensures { IfOk result (λ new. new ≡ map (named id) values.now) }
{
    let mut named_values = Vec::with_capacity(alloc, values.len())?;
    for value in values {
        named_values.push(named(alloc, id, value)?)?;
    }
    Ok(ValueList::from_vec(named_values))
}

/// The row that the operation with this number inserts.
pub(crate) fn row_inserted(
    alloc: Global,
    node: &Node,
    number: usize,
    table: u8,
    values: &ValueList,
) -> Result<InsertedRow, AllocError>
    requires { number < 2 ^ 16 }
    ensures { IfOk result (λ row. row ≡ row_inserted node.now number table values.now) }
{
    Ok(InsertedRow {
        name: RowName {
            update: node.id,
            index: number as u16,
        },
        table,
        author: node.author,
        values: all_named(alloc, node.id, values.as_slice())?,
    })
}

/// Does one operation more.
pub(crate) fn do_op(
    alloc: Global,
    node: &Node,
    number: usize,
    mut did: RowEffects,
    op: &Op,
) -> Result<RowEffects, AllocError>
    requires { number < 2 ^ 16 }
    ensures { IfOk result (λ after. after ≡ after_op node.now number did op.now) }
{
    match op {
        Op::Insert { table, values } => {
            did.insert(row_inserted(alloc, node, number, *table, values)?)?;
            Ok(did)
        }
        Op::Delete { row } => {
            did.delete(*row)?;
            Ok(did)
        }
    }
}

/// How many operations a node has, which are at most 256.
pub(crate) fn op_count(node: &Node) -> usize
    ensures count { result ≡ length node.now.ops }
    ensures few { result ≤ 256 }
{
    node.ops.as_slice().len()
}

/// What a node does, where it is valid.
pub(crate) fn effects_of(alloc: Global, node: &Node) -> Result<RowEffects, AllocError>
    ensures { IfOk result (λ did. did ≡ effects_of node.now) }
{
    let _count = op_count(node); // it has at most 256 operations
    let ops = node.ops.as_slice();
    let mut did = RowEffects::nothing(alloc);
    for (number, op) in ops.iter().enumerate() {
        did = do_op(alloc, node, number, did, op)?;
    }
    Ok(did)
}
