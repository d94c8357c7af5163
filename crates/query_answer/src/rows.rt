//! The rows that a query goes over, of lists or of tables that lend them.

ghost use Rattle.std.specs.Prelude.{◌≡◌, List, map, option_copied, option_map, option_to_list, unwrap_or};
ghost use Rattle.update_model.specs.declared.value.Value.TheVariants.{Null};
ghost use Rattle.row_check.specs.Meaning.{value_at};
ghost use Rattle.table_model.specs.declared.shown_row.ShownRow.{ShownRow as Shown};
ghost use Rattle.query_answer.specs.Rows.{AreListsOf, row_at, rows_before, rows_of, shown_row};
ghost use Rattle.query_answer.specs.Values.{row_named, rows_in};

use crate::values::{row_named, rows_in};
use table_model::{ShownRow, ShownRowList};
use tuple_state::{Lent, Tables};
use update_model::{RowName, Value};

/// A row that a query goes over.
#[derive(Drop)]
pub(crate) enum Row<'a> {
    /// One that a list has.
    Listed(&'a ShownRow),
    /// One that tables lend.
    Lent(Lent<'a>),
}

impl<'a> Row<'a> {
    /// The row's name.
    pub(crate) fn name(&self) -> &'a RowName
        ensures { result.now ≡ (shown_row self.now).name }
    {
        match self {
            Row::Listed(row) => {
                let row = *row;
                &row.name
            }
            Row::Lent(row) => row.name(),
        }
    }

    /// The value in a column, and nothing where it is null or there is no such column.
    pub(crate) fn value(&self, column: usize) -> Option<&'a Value>
        ensures { unwrap_or (option_copied result) Null ≡ value_at (shown_row self.now).values column }
    {
        match self {
            Row::Listed(row) => {
                let row = *row;
                row.values.as_slice().get(column)
            }
            Row::Lent(row) => row.value(column),
        }
    }
}

/// The rows that a query goes over.
#[derive(Clone, Copy)]
pub(crate) enum Rows<'a> {
    /// Those of lists, one for each table, in which names rise.
    Listed(&'a [ShownRowList]),
    /// Those that tables lend, of so many tables.
    Lent(&'a Tables, u8),
}

impl<'a> Rows<'a> {
    /// How many places the rows of a table are looked for at.
    pub(crate) fn places(self, table: u8) -> usize
        ensures { rows_before self.entry table result ≡ rows_of self.entry table }
    {
        match self {
            Rows::Listed(lists) => rows_in(lists, table).len(),
            Rows::Lent(tables, count) => { if table < count { tables.row_len() } else { 0 } }
        }
    }

    /// The row of a table that stands at a place.
    pub(crate) fn row(self, table: u8, place: usize) -> Option<Row<'a>>
        ensures { map shown_row (option_to_list result) ≡ row_at self.entry table place }
    {
        match self {
            Rows::Listed(lists) => listed(rows_in(lists, table).get(place)),
            Rows::Lent(tables, count) => {
                if table < count {
                    lent(tables.lend(table, place))
                } else {
                    None
                }
            }
        }
    }

    /// The row of a table with this name.
    pub(crate) fn named(self, table: u8, name: &RowName) -> Option<Row<'a>>
        ensures { (lists : List (List Shown)) → AreListsOf self.entry lists
            → option_map shown_row result ≡ row_named (rows_in lists table) name.now }
    {
        match self {
            Rows::Listed(lists) => listed(row_named(rows_in(lists, table), name)),
            Rows::Lent(tables, count) => {
                if table < count {
                    lent(tables.lend_named(table, name))
                } else {
                    None
                }
            }
        }
    }
}

/// A row of a list, where there is one.
fn listed<'a>(row: Option<&'a ShownRow>) -> Option<Row<'a>>
    ensures { option_map shown_row result ≡ option_copied row.entry }
{
    match row {
        Some(row) => Some(Row::Listed(row)),
        None => None,
    }
}

/// A row that is lent, where one is.
fn lent<'a>(row: Option<Lent<'a>>) -> Option<Row<'a>>
    ensures { option_map shown_row result ≡ row.entry }
{
    match row {
        Some(row) => Some(Row::Lent(row)),
        None => None,
    }
}
