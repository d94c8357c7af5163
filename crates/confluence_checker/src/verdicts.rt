//! The verdict on a node.

ghost use Rattle.std.specs.Prelude.{◌≡◌, ◌<◌, ◌^◌, IfOk, []};
ghost use Rattle.update_model.specs.Node.{NodeData};
ghost use Rattle.schema.specs.Data.{Meaning};
ghost use Rattle.table_model.specs.Verdicts.{are_new, delete_reason, left_of, verdict_after, verdict_on};
ghost use Rattle.table_model.specs.Visible.{rules_with, bare_rules};
ghost use Rattle.confluence_checker.specs.Forms.{reason_against};

use crate::checker::Checker;
use crate::effects::{do_op, op_count, row_inserted};
use crate::inserted_row::InsertedRow;
use crate::limits::limits_hold;
use crate::newness::{are_new, left_of};
use crate::reasons::{delete_reason, insert_reason};
use crate::row_effects::RowEffects;
use crate::visibility::visible_rows;
use row_check::{Checks, Native, Relation};
use schema::Schema;
use std::alloc::{AllocError, Global};
use table_model::{Verdict, reason, verdict_goes_by_operations};
use update_model::{Node, Op, RowName};

/// Why a row may not be deleted, where these rows are visible on the ancestors and earlier operations did this.
fn reason_against_deletion(
    schema: &Schema,
    rows: &[InsertedRow],
    node: &Node,
    did: &RowEffects,
    name: &RowName,
) -> Option<u8>
    ensures { result ≡ delete_reason (bare_rules schema.now.tables) rows.now did.now.deleted node.now.author name.now }
{
    delete_reason(schema, rows, did.deleted(), &node.author, name)
}

/// Why an operation with this number may not be done, where these rows are visible on the ancestors and earlier
/// operations did this.
fn reason_against<L: Relation, C: Checks<L>>(
    checker: &Checker<'_, L, C>,
    rows: &[InsertedRow],
    node: &Node,
    number: usize,
    did: &RowEffects,
    op: &Op,
) -> Result<Option<u8>, AllocError>
    requires { number < 2 ^ 16 }
    ensures { IfOk result (λ reason. reason ≡ reason_against (rules_with L.answer checker.now.schema.now.tables)
        rows.now node.now number did.now op.now) }
{
    match op {
        Op::Insert { table, values } => {
            let row = row_inserted(checker.alloc, node, number, *table, values)?;
            insert_reason(
                checker.alloc,
                checker.schema,
                checker.native,
                did.inserted(),
                rows,
                &row,
            )
        }
        Op::Delete { row } => Ok(reason_against_deletion(checker.schema, rows, node, did, row)),
    }
}

/// Whether the rows that an update inserts are new beside each other and the rows that are visible on its ancestors,
/// but for those that it deletes.
fn is_new(
    alloc: Global,
    schema: &Schema,
    rows: &[InsertedRow],
    did: &RowEffects,
) -> Result<bool, AllocError>
    ensures { IfOk result (λ answer. answer ≡ are_new (bare_rules schema.now.tables) (left_of rows.now did.now.deleted)
        did.now.inserted) }
{
    let left = left_of(alloc, rows, did.deleted())?;
    Ok(are_new(schema, left.as_slice(), did.inserted()))
}

/// The verdict at the end of an update's operations.
fn verdict_at_end(
    alloc: Global,
    schema: &Schema,
    past: &RowEffects,
    rows: &[InsertedRow],
    did: RowEffects,
    number: usize,
) -> Result<Verdict, AllocError>
    requires { number < 2 ^ 16 }
    ensures { IfOk result (λ verdict. (ask : Meaning) (node : NodeData)
        → verdict ≡ verdict_after (rules_with ask schema.now.tables) past.now rows.now node number did []) }
{
    let new = is_new(alloc, schema, rows, &did)?;
    let both = did.joined(past.copy(alloc)?)?;
    let after = visible_rows(alloc, schema, &both)?;
    Ok(if limits_hold(schema, after.as_slice()) && new {
        Verdict::Valid
    } else {
        Verdict::Void {
            reason: reason::LIMIT_BROKEN,
            operation: number as u16,
        }
    })
}

/// The verdict on a node after what its ancestors did.
pub(crate) fn verdict_on<L: Relation, C: Checks<L>>(
    alloc: Global,
    schema: &Schema,
    native: &Native<L, C>,
    past: &RowEffects,
    node: &Node,
) -> Result<Verdict, AllocError>
    ensures { IfOk result (λ verdict. verdict ≡ verdict_on (rules_with L.answer schema.now.tables) past.now node.now) }
{
    verdict_goes_by_operations();
    let count = op_count(node);
    let rows = visible_rows(alloc, schema, past)?;
    let ops = node.ops.as_slice();
    let checker = Checker {
        alloc,
        schema,
        native,
    };
    let mut did = RowEffects::nothing(alloc);
    for (number, op) in ops.iter().enumerate() {
        if let Some(reason) = reason_against(&checker, rows.as_slice(), node, number, &did, op)? {
            return Ok(Verdict::Void {
                reason,
                operation: number as u16,
            });
        }
        did = do_op(alloc, node, number, did, op)?;
    }
    let verdict = verdict_at_end(alloc, schema, past, rows.as_slice(), did, count)?;
    Ok(verdict)
}
