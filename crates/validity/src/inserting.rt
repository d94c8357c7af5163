//! Why a row may not be inserted.

ghost use Rattle.std.specs.Prelude.{◌≡◌, IfOk};
ghost use Rattle.table_model.specs.Visible.{rules_with};
ghost use Rattle.validity.specs.Asked.{insert_asked};

use crate::own_row::OwnRow;
use crate::referring::{matches_hold, references_stand};
use row_check::{Checks, Native, Relation};
use schema::{Schema, all_fit, checks_hold};
use std::alloc::{AllocError, Global};
use table_model::reason;
use update_model::{RowEntry, RowsAt, Value};

/// The number of the first reason for which a row may not be inserted beside the update's own rows so far and the
/// visible ones, from 1 to 5, or `None` where it may.
pub(crate) fn insert_reason<L: Relation, C: Checks<L>, Q: RowsAt>(
    alloc: Global,
    schema: &Schema,
    native: &Native<L, C>,
    row: &RowEntry,
    own: &[OwnRow],
    rows: &Q,
) -> Result<Option<u8>, AllocError>
    ensures { IfOk result (λ reason. reason ≡ insert_asked (rules_with L.answer schema.now.tables) own.now
        (Q.RowsAt.row rows.now) row.now) }
{
    if row.table >= schema.tables() {
        return Ok(Some(reason::NO_TABLE));
    }
    let table = schema.table(row.table);
    let columns = table.columns.as_slice();
    let values = row.values.as_slice();
    if !all_fit(columns, values) {
        return Ok(Some(reason::MISFIT));
    }
    if !checks_hold(alloc, native, columns, table.checks.as_slice(), values)? {
        return Ok(Some(reason::CHECK_FALSE));
    }
    if !references_stand(alloc, columns, values, own, rows)? {
        return Ok(Some(reason::NO_TARGET));
    }
    if !matches_hold(alloc, table.matches.as_slice(), values, own, rows)? {
        return Ok(Some(reason::MATCH_FALSE));
    }
    Ok(None)
}
