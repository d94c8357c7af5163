//! Columns and tables of a draft by their names, of which there are at most sixteen.

ghost use Rattle.std.specs.Prelude.{◌≡◌, option_copied};
ghost use Rattle.schema.specs.Columns.{number_named, column_named, target_of, reference_at, reference_named};
ghost use Rattle.schema_text.specs.Drafts.{table_at, table_named};

use crate::draft::Draft;
use schema::{Action, Column, ColumnKind, TableDef, table_number};

/// The number of the column with this name.
pub(crate) fn number_named(columns: &[Column], name: &[u8]) -> Option<usize>
    ensures { result ≡ number_named columns.now name.now }
{
    columns
        .iter()
        .position(|column| column.name.as_slice() == name)
}

/// The column with this name.
pub(crate) fn column_named<'a>(columns: &'a [Column], name: &[u8]) -> Option<&'a Column>
    ensures { option_copied result ≡ column_named columns.now name.now }
{
    columns.iter().find(|column| column.name.as_slice() == name)
}

/// The table that a column refers to, and what becomes of a row when the one that it refers to goes.
pub(crate) fn target_of(kind: &ColumnKind) -> Option<(u8, Action)>
    ensures { result ≡ target_of kind.now }
{
    match kind {
        ColumnKind::Reference { target, action } => Some((*target, *action)),
        ColumnKind::Int { .. } | ColumnKind::Text { .. } | ColumnKind::Flag => None,
    }
}

/// The same of the column with this number.
pub(crate) fn reference_at(columns: &[Column], number: u8) -> Option<(u8, Action)>
    ensures { result ≡ reference_at columns.now number }
{
    target_of(&columns.get(usize::from(number))?.kind)
}

/// The same of the column with this name.
pub(crate) fn reference_named(columns: &[Column], name: &[u8]) -> Option<(u8, Action)>
    ensures { result ≡ reference_named columns.now name.now }
{
    target_of(&column_named(columns, name)?.kind)
}

/// The columns of the table with this number: one that has ended, or the one that has begun.
pub(crate) fn columns_at(draft: &Draft, number: u8) -> &[Column]
    ensures { result.now ≡ (table_at draft.now number).columns }
{
    table_at(draft, number).columns.as_slice()
}

/// The table with this number: one that has ended, or the one that has begun.
pub(crate) fn table_at(draft: &Draft, number: u8) -> &TableDef
    ensures { result.now ≡ table_at draft.now number }
{
    match draft.tables.as_slice().get(usize::from(number)) {
        Some(table) => table,
        None => &draft.table,
    }
}

/// The number of the table with this name, the one that has begun included.
pub(crate) fn table_named(draft: &Draft, name: &[u8]) -> Option<usize>
    ensures { result ≡ table_named draft.now name.now }
{
    let tables = draft.tables.as_slice();
    match table_number(tables, name) {
        Some(number) => Some(number),
        None => (draft.table.name.as_slice() == name).then_some(tables.len()),
    }
}
