//! Values of which a table keeps the least row.

ghost use Rattle.std.specs.Prelude.{◌≡◌, ◌++◌, [], ◌&&◌, Some, count_by, is_some, IfOk};
ghost use Rattle.std.specs.List.{list_any};
ghost use Rattle.row_check.specs.declared.cmp.Cmp.TheVariants as cmp;
ghost use Rattle.row_check.specs.Comparisons.{compares};
ghost use Rattle.row_check.specs.Meaning.{value_at};
ghost use Rattle.schema.specs.Numbers.{table_number};
ghost use Rattle.validity.specs.Asked.{are_free, freed_at, freed_by, has_value, is_freed, is_free, is_free_in};

use crate::deleting::table_at;
use crate::own_row::OwnRow;
use row_check::{Cmp, compare};
use schema::Schema;
use std::alloc::{AllocError, Global};
use update_model::{RowEntry, RowName, RowsAt, Value};

/// What a row that is deleted leaves free: its value in the column of which its table keeps the least row.
#[derive(Drop)]
pub(crate) struct Freed {
    /// The number of the table.
    pub(crate) table: u8,
    /// The value.
    pub(crate) value: Value,
}

/// Whether each row that an update inserts has a value of its own, where its table keeps the least row of each: no
/// earlier row of the update has it, and no visible one but those that the update deletes.
pub(crate) fn are_free<Q: RowsAt>(
    alloc: Global,
    schema: &Schema,
    own: &[OwnRow],
    deleted: &[RowName],
    rows: &Q,
) -> Result<bool, AllocError>
    ensures { IfOk result (λ answer. answer ≡ are_free schema.now.tables (Q.RowsAt.equal_count rows.now)
        (freed_by schema.now.tables (Q.RowsAt.row rows.now) deleted.now) [] own.now) }
{
    if !is_one_kept(schema, own) {
        return Ok(true);
    }
    let freed = freed_by(alloc, schema, deleted, rows)?;
    for index in 0..own.len() {
        if !is_free(
            alloc,
            schema,
            &own[..index],
            &own[index].entry,
            freed.as_slice(),
            rows,
        )? {
            return Ok(false);
        }
    }
    Ok(true)
}

/// Whether one of these rows is of a table that keeps the least row of each value in a column.
fn is_one_kept(schema: &Schema, own: &[OwnRow]) -> bool
    ensures { result ≡ list_any (λ o. is_some (table_number schema.now.tables o.entry.table).kept) own.now }
{
    own.iter()
        .any(|row| kept_column(schema, row.entry.table).is_some())
}

/// The column of which a table keeps the least row of each value, if any.
fn kept_column(schema: &Schema, number: u8) -> Option<u8>
    ensures { result ≡ (table_number schema.now.tables number).kept }
{
    match table_at(schema, number) {
        Some(table) => table.kept,
        None => None,
    }
}

/// What the rows with these names leave free.
fn freed_by<Q: RowsAt>(
    alloc: Global,
    schema: &Schema,
    names: &[RowName],
    rows: &Q,
) -> Result<Vec<Freed>, AllocError>
    ensures { IfOk result (λ freed. freed.items ≡ freed_by schema.now.tables (Q.RowsAt.row rows.now) names.now) }
{
    let mut freed = Vec::new(alloc);
    for name in names {
        if let Some(row) = rows.row_at(alloc, name)? {
            add_freed(alloc, schema, row, &mut freed)?;
        }
    }
    Ok(freed)
}

/// Adds what a row leaves free.
fn add_freed(
    alloc: Global,
    schema: &Schema,
    row: &RowEntry,
    freed: &mut Vec<Freed>,
) -> Result<(), AllocError>
    ensures { IfOk result (λ unit. freed.new.items ≡ freed.old.items ++ freed_at row.now
        (table_number schema.now.tables row.now.table).kept) }
{
    if let Some(column) = kept_column(schema, row.table) {
        let value = value_at(alloc, row, column)?;
        freed.push(Freed {
            table: row.table,
            value,
        })?;
    }
    Ok(())
}

/// An equal value to the one that a row has in a column.
fn value_at(alloc: Global, row: &RowEntry, column: u8) -> Result<Value, AllocError>
    ensures { IfOk result (λ value. value ≡ value_at row.now.values column) }
{
    match row.values.as_slice().get(usize::from(column)) {
        Some(value) => value.copy(alloc),
        None => Ok(Value::Null),
    }
}

/// Whether a row that the update inserts behind these has a value of its own, where its table keeps the least row of
/// each.
fn is_free<Q: RowsAt>(
    alloc: Global,
    schema: &Schema,
    before: &[OwnRow],
    row: &RowEntry,
    freed: &[Freed],
    rows: &Q,
) -> Result<bool, AllocError>
    ensures { IfOk result (λ answer. answer ≡ is_free (Q.RowsAt.equal_count rows.now) freed.now before.now row.now
        (table_number schema.now.tables row.now.table).kept) }
{
    match kept_column(schema, row.table) {
        Some(column) => is_free_in(alloc, before, row, column, freed, rows),
        None => Ok(true),
    }
}

/// The same of its value in this column.
fn is_free_in<Q: RowsAt>(
    alloc: Global,
    before: &[OwnRow],
    row: &RowEntry,
    column: u8,
    freed: &[Freed],
    rows: &Q,
) -> Result<bool, AllocError>
    ensures { IfOk result (λ answer. answer ≡ is_free_in (Q.RowsAt.equal_count rows.now) freed.now before.now
        row.now.table column (value_at row.now.values column)) }
{
    let value = value_at(alloc, row, column)?;
    if is_among(before, row.table, column, &value) {
        return Ok(false);
    }
    let number = rows.equal_rows(alloc, row.table, column, &value)?;
    Ok(number as usize <= count_freed(freed, row.table, &value))
}

/// Whether one of these rows is of a table and has a value in a column.
fn is_among(rows: &[OwnRow], table: u8, column: u8, value: &Value) -> bool
    ensures { result ≡ list_any (λ o. has_value table column value.now o.entry) rows.now }
{
    rows.iter()
        .any(|row| has_value(&row.entry, table, column, value))
}

/// Whether a row is of a table and has a value in a column.
fn has_value(row: &RowEntry, table: u8, column: u8, value: &Value) -> bool
    ensures { result ≡ has_value table column value.now row.now }
{
    row.table == table && has_at(row.values.as_slice(), column, value)
}

/// Whether one of these values stands in a column.
fn has_at(values: &[Value], column: u8, value: &Value) -> bool
    ensures { result ≡ compares cmp.Eq (value_at values.now column) value.now }
{
    match values.get(usize::from(column)) {
        Some(other) => compare(Cmp::Eq, other, value),
        None => false,
    }
}

/// How often a value of a table is left free.
fn count_freed(freed: &[Freed], table: u8, value: &Value) -> usize
    ensures { result ≡ count_by (is_freed table value.now) freed.now }
{
    freed
        .iter()
        .filter(|one| is_freed(one, table, value))
        .count()
}

/// Whether this is what a row of a table with this value leaves free.
fn is_freed(one: &Freed, table: u8, value: &Value) -> bool
    ensures { result ≡ is_freed table value.now one.now }
{
    one.table == table && compare(Cmp::Eq, &one.value, value)
}
