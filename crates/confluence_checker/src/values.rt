//! Values, columns and tables by number.

ghost use Rattle.std.specs.Prelude.{◌≡◌};
ghost use Rattle.row_check.specs.Comparisons.{compares};
ghost use Rattle.row_check.specs.Meaning.{value_at};
ghost use Rattle.schema.specs.Columns.{target_of};
ghost use Rattle.table_model.specs.Visible.{kept_of, table_of, bare_rules};

use row_check::{Cmp, compare};
use schema::{Action, Column, ColumnKind, Schema};
use update_model::Value;

/// Whether two values in columns compare so. A column that a row does not have is null.
pub(crate) fn compare_at(
    cmp: Cmp,
    left: &[Value],
    column: u8,
    right: &[Value],
    target_column: u8,
) -> bool
    ensures { result ≡ compares cmp (value_at left.now column) (value_at right.now target_column) }
{
    match (
        left.get(usize::from(column)),
        right.get(usize::from(target_column)),
    ) {
        (Some(left), Some(right)) => compare(cmp, left, right),
        _ => false,
    }
}

/// The table that a column of this kind refers to, and what becomes of a row when the one that it refers to goes.
pub(crate) fn target_of(kind: &ColumnKind) -> Option<(u8, Action)>
    ensures { result ≡ target_of kind.now }
{
    match kind {
        ColumnKind::Reference { target, action } => Some((*target, *action)),
        ColumnKind::Int { .. } | ColumnKind::Text { .. } | ColumnKind::Flag => None,
    }
}

/// The columns of the table with this number. A table that is not there has none.
pub(crate) fn columns_of(schema: &Schema, number: u8) -> &[Column]
    ensures { result.now ≡ (table_of (bare_rules schema.now.tables) number).columns }
{
    if number < schema.tables() {
        schema.table(number).columns.as_slice()
    } else {
        &[]
    }
}

/// The column of which it keeps the least row of each value, if any.
pub(crate) fn kept_of(schema: &Schema, number: u8) -> Option<u8>
    ensures { result ≡ kept_of (bare_rules schema.now.tables) number }
{
    if number < schema.tables() {
        schema.table(number).kept
    } else {
        None
    }
}

/// Whether its rows may be deleted.
pub(crate) fn is_deletable(schema: &Schema, number: u8) -> bool
    ensures { result ≡ (table_of (bare_rules schema.now.tables) number).deletable }
{
    number < schema.tables() && schema.table(number).deletable
}

/// Whether only the author of a row of it may delete that row.
pub(crate) fn is_owned(schema: &Schema, number: u8) -> bool
    ensures { result ≡ (table_of (bare_rules schema.now.tables) number).owned }
{
    number < schema.tables() && schema.table(number).owned
}
