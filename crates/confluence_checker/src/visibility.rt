//! Which rows are visible, and what they show.

ghost use Rattle.std.specs.Prelude.{◌≡◌, IfOk, OnOk, map, filter, ◌++◌};
ghost use Rattle.schema.specs.Data.{Meaning};
ghost use Rattle.table_model.specs.Visible.{shown_rows, shows, visible_rows, rules_with, bare_rules};
ghost use Rattle.confluence_checker.specs.Forms.{is_among};
ghost use Rattle.confluence_checker.specs.Seeing.{SeesAll, is_hidden, shown_by, shown_values_by, shown_row_by};

use crate::ids::is_among;
use crate::inserted_row::InsertedRow;
use crate::least::shows;
use crate::row_effects::RowEffects;
use crate::values::{columns_of, target_of};
use schema::{Action, Column, ColumnKind, Schema};
use std::alloc::{AllocError, Global};
use update_model::{RowName, Value, ValueList};

/// The names of the rows that are visible where these are seen.
fn shown_names(
    alloc: Global,
    schema: &Schema,
    did: &RowEffects,
    seen: &[RowName],
) -> Result<Vec<RowName>, AllocError>
    ensures { IfOk result (λ names. names.items ≡ map (λ row. row.name)
        (filter (λ row. shows (bare_rules schema.now.tables) did.now (is_among seen.now) row.name) did.now.inserted)) }
{
    did.inserted()
        .iter()
        .filter(|row| shows(schema, did, seen, &row.name))
        .map(|row| row.name)
        .collect(alloc)
}

/// The names of the rows that are visible. References are followed as deep as the rows are many.
pub(crate) fn visible_names(
    alloc: Global,
    schema: &Schema,
    did: &RowEffects,
) -> Result<Vec<RowName>, AllocError>
    ensures { IfOk result (λ names. SeesAll schema.now.tables did.now names.items) }
{
    let count = did.inserted().len();
    let mut seen = Vec::new(alloc);
    for _depth in 0..count {
        seen = shown_names(alloc, schema, did, seen.as_slice())?;
    }
    Ok(seen)
}

/// The rows that are visible.
pub(crate) fn visible_rows(
    alloc: Global,
    schema: &Schema,
    did: &RowEffects,
) -> Result<Vec<InsertedRow>, AllocError>
    ensures { IfOk result (λ rows. (ask : Meaning) → rows.items ≡ visible_rows (rules_with ask schema.now.tables)
        did.now) }
{
    let seen = visible_names(alloc, schema, did)?;
    let rows = rows_among(alloc, did.inserted(), seen.as_slice())?;
    Ok(rows)
}

/// Those of these rows whose names are seen.
fn rows_among(
    alloc: Global,
    rows: &[InsertedRow],
    seen: &[RowName],
) -> Result<Vec<InsertedRow>, AllocError>
    ensures { IfOk result (λ found. found.items ≡ filter (λ row. is_among seen.now row.name) rows.now) }
{
    let mut found = Vec::new(alloc);
    for row in rows {
        if is_among(seen, &row.name) {
            found.push(row.copy(alloc)?)?;
        }
    }
    Ok(found)
}

/// What a value shows in a column, where these rows are seen: null where it is a `SETNULL` reference to a row that is
/// not.
fn shown_value(
    alloc: Global,
    seen: &[RowName],
    kind: &ColumnKind,
    value: &Value,
) -> Result<Value, AllocError>
    ensures { IfOk result (λ shown. shown ≡ shown_by seen.now kind.now value.now) }
{
    if is_hidden(seen, kind, value) {
        return Ok(Value::Null);
    }
    value.copy(alloc)
}

/// Whether a value is a `SETNULL` reference to a row that is not seen.
fn is_hidden(seen: &[RowName], kind: &ColumnKind, value: &Value) -> bool
    ensures { result ≡ is_hidden seen.now kind.now value.now }
{
    let Value::Row(name) = value else {
        return false;
    };
    match target_of(kind) {
        Some((_, Action::SetNull)) => !is_among(seen, name),
        _ => false,
    }
}

/// Puts what values show, each in its column, at the end of a list.
fn push_shown(
    alloc: Global,
    shown: &mut Vec<Value>,
    seen: &[RowName],
    columns: &[Column],
    values: &[Value],
) -> Result<(), AllocError>
    ensures { OnOk result (shown.new.items ≡ shown.old.items ++ shown_values_by seen.now columns.now values.now) }
{
    match columns {
        [] => push_values(alloc, shown, values),
        [column, columns @ ..] => match values {
            [] => Ok(()),
            [value, values @ ..] => {
                shown.push(shown_value(alloc, seen, &column.kind, value)?)?;
                push_shown(alloc, shown, seen, columns, values)
            }
        },
    }
}

/// Puts equal values at the end of a list.
fn push_values(alloc: Global, list: &mut Vec<Value>, values: &[Value]) -> Result<(), AllocError>
    ensures { OnOk result (list.new.items ≡ list.old.items ++ values.now) }
{
    for value in values {
        list.push(value.copy(alloc)?)?;
    }
    Ok(())
}

/// What values show, each in its column.
fn shown_values(
    alloc: Global,
    seen: &[RowName],
    columns: &[Column],
    values: &[Value],
) -> Result<ValueList, AllocError>
    ensures { IfOk result (λ shown. shown ≡ shown_values_by seen.now columns.now values.now) }
{
    let mut shown = Vec::with_capacity(alloc, values.len())?;
    push_shown(alloc, &mut shown, seen, columns, values)?;
    Ok(ValueList::from_vec(shown))
}

/// Each visible row, with what its values show.
pub(crate) fn shown_rows(
    alloc: Global,
    schema: &Schema,
    did: &RowEffects,
) -> Result<Vec<InsertedRow>, AllocError>
    ensures { IfOk result (λ rows. (ask : Meaning) → rows.items ≡ shown_rows (rules_with ask schema.now.tables) did.now) }
{
    let seen = visible_names(alloc, schema, did)?;
    let visible = rows_among(alloc, did.inserted(), seen.as_slice())?;
    let shown = shown_among(alloc, schema, visible.as_slice(), seen.as_slice())?;
    Ok(shown)
}

/// These rows, with what their values show.
fn shown_among(
    alloc: Global,
    schema: &Schema,
    rows: &[InsertedRow],
    seen: &[RowName],
) -> Result<Vec<InsertedRow>, AllocError>
    ensures { IfOk result (λ shown. shown.items ≡ map (shown_row_by schema.now.tables seen.now) rows.now) }
{
    let mut shown = Vec::with_capacity(alloc, rows.len())?;
    for row in rows {
        shown.push(InsertedRow {
            name: row.name,
            table: row.table,
            author: row.author,
            values: shown_values(
                alloc,
                seen,
                columns_of(schema, row.table),
                row.values.as_slice(),
            )?,
        })?;
    }
    Ok(shown)
}
