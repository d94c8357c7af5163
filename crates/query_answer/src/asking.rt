//! Which rows a query asks for.

ghost use Rattle.std.specs.Prelude.{◌≡◌, IfOk, List, map};
ghost use Rattle.row_check.specs.Kinds.{FitsKinds};
ghost use Rattle.query.specs.Columns.{seen_kinds};
ghost use Rattle.table_model.specs.declared.shown_row.ShownRow.{ShownRow as Shown};
ghost use Rattle.query_answer.specs.Rows.{AreListsOf, shown_row};
ghost use Rattle.query_answer.specs.Values.{is_asked, seen, seen_at};

use crate::rows::{Row, Rows};
use crate::values::value_of;
use query::{Condition, Slot};
use row_check::{Checks, Kind, Native, Relation};
use std::alloc::{AllocError, Global};
use update_model::Value;

/// What a condition sees of a value in a column of this kind.
fn seen(alloc: Global, kind: Kind, value: &Value) -> Result<Value, AllocError>
    ensures { IfOk result (λ it. it ≡ seen kind value.now) }
{
    match (kind, value) {
        (Kind::Int, Value::Int(_)) => value.copy(alloc),
        (Kind::Text, Value::Text(_)) => value.copy(alloc),
        (Kind::Flag, Value::Flag(_)) => value.copy(alloc),
        (Kind::Reference, Value::Row(_)) => Ok(Value::Flag(true)),
        _ => Ok(Value::Null),
    }
}

/// What a condition sees of a row, in the columns that it names.
fn seen_values(
    alloc: Global,
    rows: Rows,
    row: &Row,
    slots: &[Slot],
) -> Result<Vec<Value>, AllocError>
    ensures kinds { IfOk result (λ values. FitsKinds (seen_kinds slots.now) values.items) }
    ensures values { IfOk result (λ values. (lists : List (List Shown)) → AreListsOf rows.entry lists
        → values.items ≡ map (seen_at lists (shown_row row.now)) slots.now) }
{
    let mut values = Vec::with_capacity(alloc, slots.len())?;
    for slot in slots {
        let found = value_of(rows, row, slot.source);
        values.push(seen(alloc, slot.kind, found.value())?)?;
    }
    Ok(values)
}

/// Whether a row is asked for.
pub(crate) fn is_asked<L: Relation, C: Checks<L>>(
    alloc: Global,
    native: &Native<L, C>,
    rows: Rows,
    condition: &Option<Condition>,
    row: &Row,
) -> Result<bool, AllocError>
    ensures { IfOk result (λ answer. (lists : List (List Shown)) → AreListsOf rows.entry lists
        → answer ≡ is_asked L.answer lists condition.now (shown_row row.now)) }
{
    match condition {
        None => Ok(true),
        Some(condition) => {
            let values = seen_values(alloc, rows, row, condition.slots())?;
            condition.holds(alloc, native, values.as_slice())
        }
    }
}
