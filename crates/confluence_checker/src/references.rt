//! The references that a row makes.

ghost use Rattle.std.specs.Prelude.{◌≡◌, ◌==◌, ◌&&◌, ◌++◌, filter};
ghost use Rattle.std.specs.List.{list_all, list_any};
ghost use Rattle.schema.specs.Columns.{is_restrict};
ghost use Rattle.table_model.specs.Verdicts.{stands_among};
ghost use Rattle.table_model.specs.Visible.{is_cascade, ref_in, refs_in, same_row};
ghost use Rattle.confluence_checker.specs.Forms.{is_among};

use crate::ids::{is_among, same_row};
use crate::inserted_row::InsertedRow;
use crate::values::target_of;
use schema::{Action, Column, ColumnKind};
use update_model::{RowName, Value};

/// Whether each row that is named by `CASCADE` is among those that are seen.
#[tactic(auto, using(crate::proofs::Either::cascades_next))]
pub(crate) fn cascades_seen(columns: &[Column], values: &[Value], seen: &[RowName]) -> bool
    ensures { result ≡ list_all (λ r. is_among seen.now r.name)
        (filter (λ r. is_cascade r.action) (refs_in columns.now values.now)) }
{
    match columns {
        [] => true,
        [column, columns @ ..] => match values {
            [] => true,
            [value, values @ ..] => {
                cascade_seen(&column.kind, value, seen) && cascades_seen(columns, values, seen)
            }
        },
    }
}

/// The same of one value.
fn cascade_seen(kind: &ColumnKind, value: &Value, seen: &[RowName]) -> bool
    ensures { result ≡ list_all (λ r. is_among seen.now r.name)
        (filter (λ r. is_cascade r.action) (ref_in kind.now value.now)) }
{
    let Value::Row(name) = value else {
        return true;
    };
    match target_of(kind) {
        Some((_, Action::Cascade)) => is_among(seen, name),
        _ => true,
    }
}

/// Whether each row that is named stands among these, which are newer and older ones, in the table that the reference
/// is to.
#[tactic(auto, using(crate::proofs::Either::all_next))]
pub(crate) fn references_stand(
    columns: &[Column],
    values: &[Value],
    newer: &[InsertedRow],
    older: &[InsertedRow],
) -> bool
    ensures { result ≡ list_all (stands_among (newer.now ++ older.now)) (refs_in columns.now values.now) }
{
    match columns {
        [] => true,
        [column, columns @ ..] => match values {
            [] => true,
            [value, values @ ..] => {
                reference_stands(&column.kind, value, newer, older)
                    && references_stand(columns, values, newer, older)
            }
        },
    }
}

/// The same of one value.
#[tactic(auto, using(crate::proofs::Either::rows_either))]
fn reference_stands(
    kind: &ColumnKind,
    value: &Value,
    newer: &[InsertedRow],
    older: &[InsertedRow],
) -> bool
    ensures { result ≡ list_all (stands_among (newer.now ++ older.now)) (ref_in kind.now value.now) }
{
    let Value::Row(name) = value else {
        return true;
    };
    match target_of(kind) {
        Some((target, _)) => has_row(newer, name, target) || has_row(older, name, target),
        None => true,
    }
}

/// Whether a row with this name stands among these, in this table.
pub(crate) fn has_row(rows: &[InsertedRow], name: &RowName, table: u8) -> bool
    ensures { result ≡ list_any (λ row. same_row row.name name.now && (row.table == table)) rows.now }
{
    rows.iter()
        .any(|row| same_row(&row.name, name) && row.table == table)
}

/// Whether a row is named by `RESTRICT`.
#[tactic(auto, using(crate::proofs::Either::any_next))]
pub(crate) fn restricts(columns: &[Column], values: &[Value], name: &RowName) -> bool
    ensures { result ≡ list_any (λ r. is_restrict r.action && same_row r.name name.now) (refs_in columns.now values.now) }
{
    match columns {
        [] => false,
        [column, columns @ ..] => match values {
            [] => false,
            [value, values @ ..] => {
                restricts_in(&column.kind, value, name) || restricts(columns, values, name)
            }
        },
    }
}

/// The same of one value.
fn restricts_in(kind: &ColumnKind, value: &Value, name: &RowName) -> bool
    ensures { result ≡ list_any (λ r. is_restrict r.action && same_row r.name name.now) (ref_in kind.now value.now) }
{
    let Value::Row(target) = value else {
        return false;
    };
    match target_of(kind) {
        Some((_, Action::Restrict)) => same_row(target, name),
        _ => false,
    }
}
