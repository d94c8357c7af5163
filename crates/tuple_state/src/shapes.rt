//! What tells which rows of each table are visible.

ghost use Rattle.std.specs.Prelude.{◌≡◌, IfOk, [], map};
ghost use Rattle.schema.specs.Sound.{AreTables};
ghost use Rattle.table_model.specs.Visible.{kept_of};
ghost use Rattle.tuple_state.specs.State.{keep_any, rules_over, shape_of};

use crate::shape::Shape;
use schema::{Column, ColumnList, Schema};
use std::alloc::{AllocError, Global};

/// The shape of each table of a schema.
pub(crate) fn shapes_of(alloc: Global, schema: &Schema) -> Result<Vec<Shape>, AllocError>
    ensures shapes { IfOk result (λ shapes. shapes.items ≡ map shape_of schema.now.tables) }
    ensures tables { IfOk result (λ shapes. AreTables [] schema.now.tables) }
{
    let mut shapes = Vec::new(alloc);
    for number in 0..schema.tables() {
        let table = schema.table(number);
        let columns = copy_columns(alloc, table.columns.as_slice())?;
        shapes.push(Shape {
            columns: ColumnList::from_vec(columns),
            kept: table.kept,
        })?;
    }
    Ok(shapes)
}

/// Whether one of these tables keeps the least row of each value of a column.
pub(crate) fn keep_any(shapes: &[Shape]) -> bool
    ensures { result ≡ keep_any shapes.now }
{
    shapes.iter().any(|shape| shape.kept.is_some())
}

/// The column of which the table with this number keeps the least row of each value, if any.
pub(crate) fn kept_in(shapes: &[Shape], table: u8) -> Option<u8>
    ensures { result ≡ kept_of (rules_over shapes.now) table }
{
    match shapes.get(usize::from(table)) {
        Some(shape) => shape.kept,
        None => None,
    }
}

/// Equal shapes on memory of their own.
pub(crate) fn copy_shapes(alloc: Global, shapes: &[Shape]) -> Result<Vec<Shape>, AllocError>
    ensures { IfOk result (λ copies. copies.items ≡ shapes.now) }
{
    let mut copies = Vec::with_capacity(alloc, shapes.len())?;
    for shape in shapes {
        let columns = copy_columns(alloc, shape.columns.as_slice())?;
        copies.push_reserved(Shape {
            columns: ColumnList::from_vec(columns),
            kept: shape.kept,
        });
    }
    Ok(copies)
}

/// Equal columns on memory of their own.
fn copy_columns(alloc: Global, columns: &[Column]) -> Result<Vec<Column>, AllocError>
    ensures { IfOk result (λ copies. copies.items ≡ columns.now) }
{
    let mut copies = Vec::with_capacity(alloc, columns.len())?;
    for column in columns {
        copies.push_reserved(copy_column(alloc, column)?);
    }
    Ok(copies)
}

fn copy_column(alloc: Global, column: &Column) -> Result<Column, AllocError>
    ensures { IfOk result (λ copy. copy ≡ column.now) }
{
    Ok(Column {
        name: column.name.copy(alloc)?,
        kind: column.kind,
        null: column.null,
        line: column.line,
    })
}
