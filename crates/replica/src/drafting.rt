//! Operations as tables see them before they are signed.

ghost use Rattle.std.specs.Prelude.{◌≡◌, ◌≤◌, IfOk, IfSome, IsTrue, false, length, map};
ghost use Rattle.std.specs.List.{list_any};
ghost use Rattle.update_model.specs.declared.limits.TheConstants.{MAX_NODE_OPS};
ghost use Rattle.update_model.specs.Entry.{same_id};
ghost use Rattle.update_model.specs.Graph.{holds};
ghost use Rattle.update_codec.specs.Parts.{entry_of};
ghost use Rattle.replica.specs.Making.{IsDraft, op_names, value_names};

use history::History;
use row_check::{Checks, Relation};
use std::alloc::{AllocError, Global};
use update_model::{AuthorKey, IdList, Node, Op, OpList, UpdateId, Value};

/// How many ids are tried for a draft: more than updates can be held and operations can name.
const TRIES: u32 = 262_144;

/// These operations by an author after these predecessors, under an id that no held update has and no operation names.
/// There is always one; where none of those that are tried serves, the answer is as for want of memory.
pub fn draft_of<L: Relation, C: Checks<L>>(
    alloc: Global,
    history: &History<L, C>,
    author: AuthorKey,
    preds: &[UpdateId],
    ops: &OpList,
) -> Result<Node, AllocError>
    requires { length ops.now ≤ MAX_NODE_OPS }
    ensures { IfOk result (λ draft. IsDraft history.now author preds.now ops.now draft) }
{
    let Some(id) = free_id(history, ops.as_slice()) else {
        return Err(AllocError);
    };
    Ok(Node {
        id,
        preds: IdList::from_vec(Vec::from_slice(alloc, preds)?),
        author,
        ops: ops.copy(alloc)?,
    })
}

/// An id that no held update has and no operation names.
fn free_id<L: Relation, C: Checks<L>>(history: &History<L, C>, ops: &[Op]) -> Option<UpdateId>
    ensures held { IfSome result (λ id. holds (map entry_of history.now.members) id ≡ false) }
    ensures named { IfSome result (λ id. list_any (op_names id) ops.now ≡ false) }
{
    for number in 0..TRIES {
        let id = numbered(number);
        if is_free(history, ops, &id) {
            return Some(id);
        }
    }
    None
}

/// Whether no held update has this id and no operation names it.
fn is_free<L: Relation, C: Checks<L>>(history: &History<L, C>, ops: &[Op], id: &UpdateId) -> bool
    ensures held { IsTrue result → holds (map entry_of history.now.members) id.now ≡ false }
    ensures named { IsTrue result → list_any (op_names id.now) ops.now ≡ false }
{
    history.position(id).is_none() && !any_op_names(ops, id)
}

/// The id that begins with this number.
fn numbered(number: u32) -> UpdateId {
    let mut bytes = [0; 32];
    bytes[..4].copy_from_slice(&number.to_be_bytes());
    UpdateId(bytes)
}

/// Whether one of these operations names a row of the update with this id.
fn any_op_names(ops: &[Op], id: &UpdateId) -> bool
    ensures { result ≡ list_any (op_names id.now) ops.now }
{
    ops.iter().any(|op| names(op, id))
}

/// Whether an operation does.
fn names(op: &Op, id: &UpdateId) -> bool
    ensures { result ≡ op_names id.now op.now }
{
    match op {
        Op::Insert { values, .. } => any_value_names(values.as_slice(), id),
        Op::Delete { row } => same_id(id, &row.update),
    }
}

/// Whether one of these values does.
fn any_value_names(values: &[Value], id: &UpdateId) -> bool
    ensures { result ≡ list_any (value_names id.now) values.now }
{
    values.iter().any(|value| value_names(value, id))
}

/// Whether a value does.
fn value_names(value: &Value, id: &UpdateId) -> bool
    ensures { result ≡ value_names id.now value.now }
{
    match value {
        Value::Row(row) => same_id(id, &row.update),
        _ => false,
    }
}

/// Whether two ids are one.
fn same_id(a: &UpdateId, b: &UpdateId) -> bool
    ensures { result ≡ same_id a.now b.now }
{
    a.cmp(b).is_eq()
}
