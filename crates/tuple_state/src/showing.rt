//! The visible rows of a table, and what their values show.

ghost use Rattle.std.specs.Prelude.{◌≡◌, ◌<◌, ◌++◌, ◌&&◌, IfOk, OnOk, Some, length, map, slice_get};
ghost use Rattle.std.specs.List.Sorted.{IsPermutation, IsStrictlySortedBy};
ghost use Rattle.table_model.specs.Tables.{listed, name_cmp};
ghost use Rattle.table_model.specs.Verdicts.{in_table};
ghost use Rattle.table_model.specs.Visible.{is_visible, shown};
ghost use Rattle.tuple_state.specs.Arrived.{arrived};
ghost use Rattle.tuple_state.specs.Showing.{is_shown_null, shown_by, shown_values_by};
ghost use Rattle.tuple_state.specs.State.{done_in, row_of, rules_of_state};
ghost use Rattle.tuple_state.specs.declared.inserted.Inserted.{Inserted as Row};

use crate::{Inserted, Tables};
use schema::{Action, Column, ColumnKind};
use std::alloc::{AllocError, Global};
use table_model::ShownRow;
use update_model::{Value, ValueList};

/// Whether a value is a `SETNULL` reference to a row that is not visible.
pub(crate) fn is_nulled(tables: &Tables, column: &Column, value: &Value) -> bool
    ensures { result ≡ is_shown_null (is_visible (rules_of_state tables.now) (done_in tables.now)) column.now.kind
        value.now }
{
    match (value, column.kind) {
        (
            Value::Row(name),
            ColumnKind::Reference {
                target: _,
                action: Action::SetNull,
            },
        ) => !tables.is_shown(name),
        _ => false,
    }
}

/// What a value shows in a column.
fn shown_value(
    alloc: Global,
    tables: &Tables,
    column: &Column,
    value: &Value,
) -> Result<Value, AllocError>
    ensures { IfOk result (λ shown. shown ≡ shown_by (is_visible (rules_of_state tables.now) (done_in tables.now))
        column.now.kind value.now) }
{
    if is_nulled(tables, column, value) {
        return Ok(Value::Null);
    }
    value.copy(alloc)
}

/// Puts what values show, each in its column, at the end of a list.
fn push_shown(
    alloc: Global,
    list: &mut Vec<Value>,
    tables: &Tables,
    columns: &[Column],
    values: &[Value],
) -> Result<(), AllocError>
    ensures { OnOk result (list.new.items ≡ list.old.items ++ shown_values_by (is_visible (rules_of_state tables.now)
        (done_in tables.now)) columns.now values.now) }
{
    match columns {
        [] => push_values(alloc, list, values),
        [column, columns @ ..] => match values {
            [] => Ok(()),
            [value, values @ ..] => {
                list.push(shown_value(alloc, tables, column, value)?)?;
                push_shown(alloc, list, tables, columns, values)
            }
        },
    }
}

/// Puts equal values at the end of a list.
fn push_values(alloc: Global, list: &mut Vec<Value>, values: &[Value]) -> Result<(), AllocError>
    ensures { OnOk result (list.new.items ≡ list.old.items ++ values.now) }
{
    for value in values {
        list.push(value.copy(alloc)?)?;
    }
    Ok(())
}

/// What values show, each in its column.
fn shown_values(
    alloc: Global,
    tables: &Tables,
    columns: &[Column],
    values: &[Value],
) -> Result<ValueList, AllocError>
    ensures { IfOk result (λ list. list ≡ shown_values_by (is_visible (rules_of_state tables.now) (done_in tables.now))
        columns.now values.now) }
{
    let mut list = Vec::with_capacity(alloc, values.len())?;
    push_shown(alloc, &mut list, tables, columns, values)?;
    Ok(ValueList::from_vec(list))
}

/// A row as its table lists it.
fn shown_row(alloc: Global, tables: &Tables, row: &Inserted) -> Result<ShownRow, AllocError>
    ensures { IfOk result (λ line. line ≡ listed (shown (rules_of_state tables.now) (done_in tables.now)
        (row_of row.now))) }
{
    let columns = tables.columns(row.entry.table);
    Ok(ShownRow {
        name: row.name,
        values: shown_values(alloc, tables, columns, row.entry.values.as_slice())?,
    })
}

/// Whether the row at a place is one of the table with this number, and visible.
pub(crate) fn is_listed(tables: &Tables, table: u8, place: usize) -> bool
    requires { place < length tables.now.inserted }
    ensures { (it : Row) → slice_get tables.now.inserted place ≡ Some it
        → result ≡ (in_table table (row_of it) && is_visible (rules_of_state tables.now) (done_in tables.now) it.name) }
{
    tables.is_in(place, table) && tables.is_marked(place)
}

/// The visible rows of the table with this number in rising order of names, as it lists them. It goes over the rows of
/// all tables.
pub(crate) fn listed_rows(
    alloc: Global,
    tables: &Tables,
    table: u8,
) -> Result<Vec<ShownRow>, AllocError>
    ensures rising { IfOk result (λ lines. IsStrictlySortedBy name_cmp (map (λ line. line.name) lines.items)) }
    ensures exact { IfOk result (λ lines. IsPermutation lines.items (arrived tables.now table)) }
{
    let mut lines = Vec::new(alloc);
    let places = tables.places_by_name();
    for (_, place) in places.iter() {
        if is_listed(tables, table, *place) {
            lines.push(shown_row(alloc, tables, tables.row(*place))?)?;
        }
    }
    Ok(lines)
}

/// Equal rows on memory of their own.
pub(crate) fn copy_rows(alloc: Global, rows: &[Inserted]) -> Result<Vec<Inserted>, AllocError>
    ensures { IfOk result (λ copies. copies.items ≡ rows.now) }
{
    let mut copies = Vec::with_capacity(alloc, rows.len())?;
    for row in rows {
        copies.push_reserved(copy_row(alloc, row)?);
    }
    Ok(copies)
}

fn copy_row(alloc: Global, row: &Inserted) -> Result<Inserted, AllocError>
    ensures { IfOk result (λ copy. copy ≡ row.now) }
{
    Ok(Inserted {
        position: row.position,
        name: row.name,
        entry: row.entry.copy(alloc)?,
    })
}
