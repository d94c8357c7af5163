//! The rows that a row names by `RESTRICT`, and the tables whose rows may be named so.

ghost use Rattle.std.specs.Prelude.{◌≡◌};
ghost use Rattle.schema.specs.Columns.{target_of};
ghost use Rattle.tuple_state.specs.Parents.{any_restricts, held_in, holds_on_to, is_held, restricts_in, some_holding};

use crate::shape::Shape;
use schema::{Action, Column, ColumnKind};
use update_model::{RowName, Value};

/// The row that a value names by `RESTRICT`, if it does.
fn held_by(column: &Column, value: &Value) -> Option<RowName>
    ensures { result ≡ held_in column.now.kind value.now }
{
    match (value, column.kind) {
        (
            Value::Row(name),
            ColumnKind::Reference {
                target: _,
                action: Action::Restrict,
            },
        ) => Some(*name),
        _ => None,
    }
}

/// Whether a value names this row by `RESTRICT`.
fn restricts_column(column: &Column, value: &Value, name: &RowName) -> bool
    ensures { result ≡ restricts_in name.now column.now.kind value.now }
{
    match held_by(column, value) {
        Some(held) => held == *name,
        None => false,
    }
}

/// Whether one of these values names this row by `RESTRICT`.
pub(crate) fn restricts(columns: &[Column], values: &[Value], name: &RowName) -> bool
    ensures { result ≡ any_restricts name.now columns.now values.now }
{
    for number in 0..columns.len().min(values.len()) {
        if restricts_column(&columns[number], &values[number], name) {
            return true;
        }
    }
    false
}

/// Whether a column refers to this table by `RESTRICT`.
fn holds_on_to(table: u8, column: &Column) -> bool
    ensures { result ≡ holds_on_to table (target_of column.now.kind) }
{
    match column.kind {
        ColumnKind::Reference {
            target,
            action: Action::Restrict,
        } => target == table,
        _ => false,
    }
}

/// Whether one of these columns refers to this table by `RESTRICT`.
fn some_holding(table: u8, columns: &[Column]) -> bool
    ensures { result ≡ some_holding table columns.now }
{
    columns.iter().any(|column| holds_on_to(table, column))
}

/// Whether a column of some table refers to this one by `RESTRICT`.
pub(crate) fn is_held(shapes: &[Shape], table: u8) -> bool
    ensures { result ≡ is_held shapes.now table }
{
    shapes
        .iter()
        .any(|shape| some_holding(table, shape.columns.as_slice()))
}
