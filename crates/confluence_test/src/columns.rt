//! What columns refer to.

ghost use Rattle.std.specs.Prelude.{◌≡◌, ◌<◌, ◌≤◌, [], length};
ghost use Rattle.std.specs.List.{AllByRecursion};
ghost use Rattle.schema.specs.Columns.{target_of};
ghost use Rattle.confluence_laws.specs.Examples.{is_skipped};
ghost use Rattle.schema.specs.Least.{IsKeptAlone};
ghost use Rattle.schema.specs.Sound.{AreTables, IsSoundColumn};
ghost use Rattle.table_model.specs.Visible.{table_of, bare_rules};
ghost use Rattle.confluence_test.specs.Plans.{needed_at, all_of};

use schema::{Action, Column, ColumnKind, Schema, TableDef};

/// The table with this number.
pub(crate) fn table_of(schema: &Schema, number: u8) -> &TableDef
    requires { number < length schema.now.tables }
    ensures table { result.now ≡ table_of (bare_rules schema.now.tables) number }
    ensures columns { AllByRecursion (IsSoundColumn number) result.now.columns }
    ensures few_columns { length result.now.columns ≤ 16 }
    ensures few_rows { result.now.at_most ≤ 64 }
    ensures kept { IsKeptAlone result.now.uniques result.now.at_most result.now.kept }
    ensures few_tables { length schema.now.tables ≤ 16 }
    ensures sound { AreTables [] schema.now.tables }
{
    let _tables = schema.tables(); // what every schema keeps
    schema.table(number)
}

/// The table that a column refers to, and what becomes of a row when the one that it refers to goes.
pub(crate) fn target_of(column: &Column) -> Option<(u8, Action)>
    ensures { result ≡ target_of column.now.kind }
{
    match &column.kind {
        ColumnKind::Reference { target, action } => Some((*target, *action)),
        ColumnKind::Int { .. } | ColumnKind::Text { .. } | ColumnKind::Flag => None,
    }
}

/// Whether a column with this number is the one to be passed over, if any.
pub(crate) fn is_skipped(skip: Option<u8>, number: usize) -> bool
    ensures { result ≡ is_skipped skip number }
{
    match skip {
        None => false,
        Some(column) => usize::from(column) == number,
    }
}

/// The table of which a row is needed for the column with this number, which is not the one to be passed over, if any.
pub(crate) fn needed_by(skip: Option<u8>, number: usize, column: &Column) -> Option<u8>
    ensures { all_of result ≡ needed_at skip number column.now }
{
    match target_of(column) {
        Some((target, _)) if !column.null && !is_skipped(skip, number) => Some(target),
        _ => None,
    }
}
