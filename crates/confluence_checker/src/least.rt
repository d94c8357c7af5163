//! Candidates to be visible, and the least of those with one value.

ghost use Rattle.std.specs.Prelude.{◌≡◌, ◌&&◌};
ghost use Rattle.std.specs.List.{list_all, list_any};
ghost use Rattle.table_model.specs.Visible.{bare_rules, cascade_refs, goes_before, is_candidate, is_least_in, kept_of};
ghost use Rattle.table_model.specs.Visible.{name_cmp, shows};
ghost use Rattle.confluence_checker.specs.Forms.{is_among};

use crate::ids::same_row;
use crate::inserted_row::InsertedRow;
use crate::references::cascades_seen;
use crate::row_effects::RowEffects;
use crate::values::{columns_of, compare_at, kept_of};
use row_check::Cmp;
use schema::Schema;
use std::cmp::Ordering;
use update_model::RowName;

/// Whether a row is visible, where these are seen: it is a candidate, and no other one goes before it.
pub(crate) fn shows(schema: &Schema, did: &RowEffects, seen: &[RowName], name: &RowName) -> bool
    ensures { result ≡ shows (bare_rules schema.now.tables) did.now (is_among seen.now) name.now }
{
    did.inserted().iter().any(|row| {
        same_row(&row.name, name)
            && (is_candidate(schema, did, seen, row) && is_least(schema, did, seen, row))
    })
}

/// Whether a row is a candidate, where these are seen: each row that it names by `CASCADE` is seen, and it is not
/// deleted.
fn is_candidate(schema: &Schema, did: &RowEffects, seen: &[RowName], row: &InsertedRow) -> bool
    ensures { result ≡ is_candidate (bare_rules schema.now.tables) did.now (is_among seen.now) row.now }
{
    needs_are_seen(schema, row, seen) && !did.is_deleted(&row.name)
}

/// Whether each row that a row names by `CASCADE` is seen.
fn needs_are_seen(schema: &Schema, row: &InsertedRow, seen: &[RowName]) -> bool
    ensures { result ≡ list_all (λ r. is_among seen.now r.name) (cascade_refs (bare_rules schema.now.tables) row.now) }
{
    cascades_seen(columns_of(schema, row.table), row.values.as_slice(), seen)
}

/// Whether no candidate goes before a row in the column of which its table keeps the least row of each value, if any.
fn is_least(schema: &Schema, did: &RowEffects, seen: &[RowName], row: &InsertedRow) -> bool
    ensures { result ≡ is_least_in (bare_rules schema.now.tables) did.now (is_among seen.now) row.now
        (kept_of (bare_rules schema.now.tables) row.now.table) }
{
    match kept_of(schema, row.table) {
        None => true,
        Some(column) => !has_lesser(schema, did, seen, column, row),
    }
}

/// Whether a candidate goes before a row in a column.
fn has_lesser(
    schema: &Schema,
    did: &RowEffects,
    seen: &[RowName],
    column: u8,
    row: &InsertedRow,
) -> bool
    ensures { result ≡ list_any (λ other. goes_before column row.now other && is_candidate
        (bare_rules schema.now.tables) did.now (is_among seen.now) other) did.now.inserted }
{
    did.inserted().iter().any(|other| {
        goes_before(column, row, other) && is_candidate(schema, did, seen, other)
    })
}

/// Whether another row of a row's table has an equal value in a column, and a lesser name.
fn goes_before(column: u8, row: &InsertedRow, other: &InsertedRow) -> bool
    ensures { result ≡ goes_before column row.now other.now }
{
    other.table == row.table
        && compare_at(
            Cmp::Eq,
            row.values.as_slice(),
            column,
            other.values.as_slice(),
            column,
        )
        && name_cmp(&other.name, &row.name).is_lt()
}

/// The order of two names.
fn name_cmp(a: &RowName, b: &RowName) -> Ordering
    ensures { result ≡ name_cmp a.now b.now }
{
    let order = a.update.cmp(&b.update);
    order.then(a.index.cmp(&b.index))
}
