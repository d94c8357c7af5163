//! Whether the rows of an update have values that no other row has, where a `UNIQUE` with `KEEP LEAST` asks for it.

ghost use Rattle.std.specs.Prelude.{◌≡◌, ◌++◌, ◌&&◌, IfOk, not};
ghost use Rattle.std.specs.List.{list_any};
ghost use Rattle.row_check.specs.declared.cmp.Cmp.TheVariants as cmp;
ghost use Rattle.row_check.specs.Comparisons.{compares};
ghost use Rattle.row_check.specs.Meaning.{value_at};
ghost use Rattle.table_model.specs.Verdicts.{are_new, in_table, is_new_in, left_of};
ghost use Rattle.table_model.specs.Visible.{bare_rules, kept_of};

use crate::ids::is_among;
use crate::inserted_row::InsertedRow;
use crate::values::{compare_at, kept_of};
use row_check::Cmp;
use schema::Schema;
use std::alloc::{AllocError, Global};
use update_model::RowName;

/// Those of these rows whose names are not among those that were deleted.
pub(crate) fn left_of(
    alloc: Global,
    rows: &[InsertedRow],
    deleted: &[RowName],
) -> Result<Vec<InsertedRow>, AllocError>
    ensures { IfOk result (λ left. left.items ≡ left_of rows.now deleted.now) }
{
    let mut left = Vec::new(alloc);
    for row in rows {
        if !is_among(deleted, &row.name) {
            left.push(row.copy(alloc)?)?;
        }
    }
    Ok(left)
}

/// Whether each of these rows, newest first, is new beside those behind it and these.
pub(crate) fn are_new(schema: &Schema, beside: &[InsertedRow], rows: &[InsertedRow]) -> bool
    ensures { result ≡ are_new (bare_rules schema.now.tables) beside.now rows.now }
{
    match rows {
        [] => true,
        [row, older @ ..] => {
            is_new(schema, older, beside, row) && are_new(schema, beside, older)
        }
    }
}

/// Whether no row beside one, of its table, has its value in the column of which the table keeps the least row, if any.
#[tactic(auto, using(crate::proofs::Either::neither))]
fn is_new(schema: &Schema, older: &[InsertedRow], beside: &[InsertedRow], row: &InsertedRow) -> bool
    ensures { result ≡ is_new_in (kept_of (bare_rules schema.now.tables) row.now.table) (older.now ++ beside.now)
        row.now }
{
    match kept_of(schema, row.table) {
        None => true,
        Some(column) => !is_taken(older, column, row) && !is_taken(beside, column, row),
    }
}

/// Whether a row of its table among these has a row's value in a column.
fn is_taken(rows: &[InsertedRow], column: u8, row: &InsertedRow) -> bool
    ensures { result ≡ list_any (λ other. in_table row.now.table other && compares cmp.Eq
        (value_at row.now.values column) (value_at other.values column)) rows.now }
{
    rows.iter().any(|other| {
        other.table == row.table
            && compare_at(
                Cmp::Eq,
                row.values.as_slice(),
                column,
                other.values.as_slice(),
                column,
            )
    })
}
