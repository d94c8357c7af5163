ghost use Rattle.std.specs.Prelude.{◌≡◌, ◌+◌, ◌<◌, [], ◌∷◌, ◌++◌, IsTrue, IfOk};
ghost use Rattle.std.specs.List.{list_all};
ghost use Rattle.schema.specs.Data.{Meaning};
ghost use Rattle.table_model.specs.Verdicts.{is_unlimited, verdict_on};
ghost use Rattle.table_model.specs.Visible.{Effects, rules_with};
ghost use Rattle.table_model.specs.Answers.{AreAnswers};
ghost use Rattle.validity.specs.Asked.{delete_asked, deleted_after, end_asked, insert_asked, op_asked, own_after};
ghost use Rattle.validity.specs.Asked.{verdict_asked};

use crate::deleting::delete_reason;
use crate::inserting::insert_reason;
use crate::kept_values::are_free;
use crate::own_row::{OwnRow, own_row};
use row_check::{Checks, Native, Relation};
use schema::Schema;
use std::alloc::{AllocError, Global};
use table_model::{Verdict, reason, unlimited_tables_hold, verdict_goes_by_operations};
use update_model::{AuthorKey, Node, Op, RowName, RowsAt};

/// What the operations so far did.
#[derive(Drop)]
struct Done {
    /// How many they are.
    number: u16,
    /// The rows that they inserted.
    own: Vec<OwnRow>,
    /// The names that they deleted.
    deleted: Vec<RowName>,
}

/// Judges an update on what its ancestors did, of which `rows` answers which rows are visible.
///
/// The verdict is the first reason that applies, operation by operation, each after the ones before it;
/// [`Verdict::Void`] says what the reasons are. A reference to the row of an earlier operation of the update may be
/// written as [`Own`](update_model::Value::Own) or as that row's name. Since no table has an `ATMOST`, or a `UNIQUE`
/// without `KEEP LEAST`, the ninth reason comes by `KEEP LEAST` alone: where a new row has a value that an earlier row
/// of the update has, or a visible one that the update does not delete.
///
/// It gives up where memory runs out.
pub fn judge<L: Relation, C: Checks<L>, Q: RowsAt>(
    alloc: Global,
    schema: &Schema,
    native: &Native<L, C>,
    node: &Node,
    rows: &Q,
) -> Result<Verdict, AllocError>
    requires { IsTrue (list_all is_unlimited schema.now.tables) }
    ensures { IfOk result (λ verdict. (past : Effects)
        → AreAnswers (rules_with L.answer schema.now.tables) past (Q.RowsAt.row rows.now) (Q.RowsAt.has_child rows.now)
        (Q.RowsAt.equal_count rows.now) (Q.RowsAt.count rows.now)
        → verdict ≡ verdict_on (rules_with L.answer schema.now.tables) past node.now) }
{
    unlimited_tables_hold();
    verdict_goes_by_operations();
    judge_operations(alloc, schema, native, node, rows)
}

/// The first reason that applies.
fn judge_operations<L: Relation, C: Checks<L>, Q: RowsAt>(
    alloc: Global,
    schema: &Schema,
    native: &Native<L, C>,
    node: &Node,
    rows: &Q,
) -> Result<Verdict, AllocError>
    ensures { IfOk result (λ verdict. verdict ≡ verdict_asked (rules_with L.answer schema.now.tables)
        (Q.RowsAt.row rows.now) (Q.RowsAt.has_child rows.now) (Q.RowsAt.equal_count rows.now) node.now 0 [] []
        node.now.ops) }
{
    let mut done = Done {
        number: 0,
        own: Vec::new(alloc),
        deleted: Vec::new(alloc),
    };
    for op in node.ops.as_slice() {
        let operation = done.number;
        let reason = do_operation(alloc, schema, native, node, rows, &mut done, op)?;
        if let Some(reason) = reason {
            return Ok(Verdict::Void { reason, operation });
        }
    }
    end_verdict(alloc, schema, &done, rows)
}

/// The verdict where each operation may be done.
fn end_verdict<Q: RowsAt>(
    alloc: Global,
    schema: &Schema,
    done: &Done,
    rows: &Q,
) -> Result<Verdict, AllocError>
    ensures { IfOk result (λ verdict. (ask : Meaning) → verdict ≡ end_asked (rules_with ask schema.now.tables)
        (Q.RowsAt.row rows.now) (Q.RowsAt.equal_count rows.now) done.now.number done.now.own.items
        done.now.deleted.items) }
{
    if are_free(
        alloc,
        schema,
        done.own.as_slice(),
        done.deleted.as_slice(),
        rows,
    )? {
        Ok(Verdict::Valid)
    } else {
        Ok(Verdict::Void {
            reason: reason::LIMIT_BROKEN,
            operation: done.number,
        })
    }
}

/// Does an operation, or answers the number of the first reason for which it may not be done.
fn do_operation<L: Relation, C: Checks<L>, Q: RowsAt>(
    alloc: Global,
    schema: &Schema,
    native: &Native<L, C>,
    node: &Node,
    rows: &Q,
    done: &mut Done,
    op: &Op,
) -> Result<Option<u8>, AllocError>
    requires { done.old.number < 256 }
    ensures reason { IfOk result (λ reason. reason ≡ op_asked (rules_with L.answer schema.now.tables)
        (Q.RowsAt.row rows.now) (Q.RowsAt.has_child rows.now) node.now done.old.number done.old.own.items
        done.old.deleted.items op.now) }
    ensures number { IfOk result (λ reason. reason ≡ None → done.new.number ≡ done.old.number + 1) }
    ensures own { IfOk result (λ reason. reason ≡ None → done.new.own.items ≡ own_after node.now done.old.number
        done.old.own.items op.now) }
    ensures deleted { IfOk result (λ reason. reason ≡ None
        → done.new.deleted.items ≡ deleted_after done.old.deleted.items op.now) }
{
    match op {
        Op::Insert { table, values } => {
            let row = own_row(alloc, node, done.number, *table, values.as_slice())?;
            insert(alloc, schema, native, rows, done, row)
        }
        Op::Delete { row } => delete(alloc, schema, &node.author, rows, done, row),
    }
}

/// Inserts a row, or answers why it may not be inserted.
fn insert<L: Relation, C: Checks<L>, Q: RowsAt>(
    alloc: Global,
    schema: &Schema,
    native: &Native<L, C>,
    rows: &Q,
    done: &mut Done,
    row: OwnRow,
) -> Result<Option<u8>, AllocError>
    requires { done.old.number < 256 }
    ensures reason { IfOk result (λ reason. reason ≡ insert_asked (rules_with L.answer schema.now.tables)
        done.old.own.items (Q.RowsAt.row rows.now) row.entry) }
    ensures number { IfOk result (λ reason. reason ≡ None → done.new.number ≡ done.old.number + 1) }
    ensures own { IfOk result (λ reason. reason ≡ None → done.new.own.items ≡ done.old.own.items ++ row ∷ []) }
    ensures deleted { IfOk result (λ reason. reason ≡ None → done.new.deleted.items ≡ done.old.deleted.items) }
{
    let reason = insert_reason(alloc, schema, native, &row.entry, done.own.as_slice(), rows)?;
    if reason.is_some() {
        return Ok(reason);
    }
    done.own.push(row)?;
    done.number += 1;
    Ok(None)
}

/// Deletes a row, or answers why it may not be deleted.
fn delete<Q: RowsAt>(
    alloc: Global,
    schema: &Schema,
    author: &AuthorKey,
    rows: &Q,
    done: &mut Done,
    name: &RowName,
) -> Result<Option<u8>, AllocError>
    requires { done.old.number < 256 }
    ensures reason { IfOk result (λ reason. (ask : Meaning) → reason ≡ delete_asked (rules_with ask schema.now.tables)
        (Q.RowsAt.row rows.now) (Q.RowsAt.has_child rows.now) done.old.deleted.items author.now name.now) }
    ensures number { IfOk result (λ reason. reason ≡ None → done.new.number ≡ done.old.number + 1) }
    ensures own { IfOk result (λ reason. reason ≡ None → done.new.own.items ≡ done.old.own.items) }
    ensures deleted { IfOk result (λ reason. reason ≡ None
        → done.new.deleted.items ≡ done.old.deleted.items ++ name.now ∷ []) }
{
    let reason = delete_reason(alloc, schema, author, name, done.deleted.as_slice(), rows)?;
    if reason.is_some() {
        return Ok(reason);
    }
    done.deleted.push(*name)?;
    done.number += 1;
    Ok(None)
}
