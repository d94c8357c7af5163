//! Rows that tables lend.

ghost use Rattle.std.specs.Prelude.{◌≡◌, find, option_copied, option_to_list, slice_get, unwrap_or};
ghost use Rattle.update_model.specs.declared.value.Value.TheVariants.{Null};
ghost use Rattle.row_check.specs.Meaning.{value_at};
ghost use Rattle.table_model.specs.Visible.{is_visible, same_row};
ghost use Rattle.tuple_state.specs.Arrived.{arrived, line_of, listed_rows};
ghost use Rattle.tuple_state.specs.Showing.{shown_by, shown_values_by};
ghost use Rattle.tuple_state.specs.State.{done_in, rules_of_state};

use crate::showing::{is_listed, is_nulled};
use crate::{Inserted, Tables};
use schema::Column;
use std::marker::Model;
use update_model::{RowName, Value};

/// A visible row, which [`Tables::lend`] and [`Tables::lend_named`] lend. A contract sees it as its table lists it.
#[derive(Drop)]
pub struct Lent<'a> {
    tables: &'a Tables,
    row: &'a Inserted,
}

impl<'a> Model for Lent<'a> {
    ghost use Rattle.table_model.specs.declared.shown_row.ShownRow.{ShownRow};
    ghost use Rattle.tuple_state.specs.Arrived.{line_of};

    ghost Value = { ShownRow };

    ghost view = { λ it. line_of it.tables.now it.row.now };
}

impl<'a> Lent<'a> {
    fn new(tables: &'a Tables, row: &'a Inserted) -> Lent<'a>
        ensures { result ≡ line_of tables.now row.now }
    {
        Lent { tables, row }
    }

    /// The row's name.
    pub fn name(&self) -> &'a RowName
        ensures { result.now ≡ self.now.name }
    {
        let row = self.row;
        &row.name
    }

    /// What the row shows in the column with this number: nothing where that is null, or there is no such column.
    pub fn value(&self, column: usize) -> Option<&'a Value>
        ensures { unwrap_or (option_copied result) Null ≡ value_at self.now.values column }
    {
        let row = self.row;
        let tables = self.tables;
        shown_in(
            tables,
            tables.columns(row.entry.table),
            row.entry.values.as_slice(),
            column,
        )
    }
}

/// What values show, each in its column, at one of them.
fn shown_in<'a>(
    tables: &Tables,
    columns: &[Column],
    values: &'a [Value],
    number: usize,
) -> Option<&'a Value>
    ensures { unwrap_or (option_copied result) Null
        ≡ value_at (shown_values_by (is_visible (rules_of_state tables.now) (done_in tables.now)) columns.now
        values.now) number }
{
    match values.get(number) {
        Some(value) => match columns.get(number) {
            Some(column) => shown_at(tables, column, value),
            None => Some(value),
        },
        None => None,
    }
}

/// What a value shows in a column.
fn shown_at<'a>(tables: &Tables, column: &Column, value: &'a Value) -> Option<&'a Value>
    ensures { unwrap_or (option_copied result) Null ≡ shown_by (is_visible (rules_of_state tables.now)
        (done_in tables.now)) column.now.kind value.now }
{
    if is_nulled(tables, column, value) {
        None
    } else {
        Some(value)
    }
}

impl Tables {
    /// The row at a place among all rows in order of arrival, where it is one of the table with this number, and
    /// visible. It takes no memory. Place after place these are the rows that the table lists, each once.
    pub fn lend(&self, table: u8, place: usize) -> Option<Lent<'_>>
        ensures { option_to_list result ≡ listed_rows self.now table
            (option_to_list (slice_get self.now.inserted place)) }
    {
        if place < self.row_len() && is_listed(self, table, place) {
            Some(Lent::new(self, self.row(place)))
        } else {
            None
        }
    }

    /// The visible row with this name, where the table with this number lists it. It takes no memory, and logarithmic
    /// time.
    pub fn lend_named(&self, table: u8, name: &RowName) -> Option<Lent<'_>>
        ensures { result ≡ find (λ row. same_row row.name name.now) (arrived self.now table) }
    {
        match self.place(name) {
            Some(place) => {
                let row = self.row(place);
                if is_listed(self, table, place) {
                    Some(Lent::new(self, row))
                } else {
                    None
                }
            }
            None => None,
        }
    }
}
