//! The rows that name a row by `CASCADE`, by its place.

ghost use Rattle.std.specs.Prelude.{◌≡◌, ◌+◌, ◌<◌, ◌^◌, ◌++◌, IfOk, OnOk, length};
ghost use Rattle.tuple_state.specs.Causes.{ends_from, parents_from};
ghost use Rattle.tuple_state.specs.Parents.{name_in, names_in};
ghost use Rattle.tuple_state.specs.State.{rules_over};

use crate::parents::parent_of;
use crate::shape::Shape;
use crate::{Dropped, Inserted};
use schema::Column;
use std::alloc::{AllocError, Global};
use update_model::Value;

/// Adds the names that values name by `CASCADE`, each with this place.
fn push_names(
    names: &mut Vec<Dropped>,
    columns: &[Column],
    values: &[Value],
    place: u32,
) -> Result<(), AllocError>
    ensures { OnOk result (names.new.items ≡ names.old.items ++ names_in place columns.now values.now) }
{
    match columns {
        [] => Ok(()),
        [column, columns @ ..] => match values {
            [] => Ok(()),
            [value, values @ ..] => {
                push_name(names, column, value, place)?;
                push_names(names, columns, values, place)
            }
        },
    }
}

/// Adds the name that a value names by `CASCADE`, if it does.
fn push_name(
    names: &mut Vec<Dropped>,
    column: &Column,
    value: &Value,
    place: u32,
) -> Result<(), AllocError>
    ensures { OnOk result (names.new.items ≡ names.old.items ++ name_in place column.now.kind value.now) }
{
    if let Some(name) = parent_of(column, value) {
        names.push(Dropped {
            position: place,
            name,
        })?;
    }
    Ok(())
}

/// What rows name by `CASCADE`.
#[derive(Drop)]
pub(crate) struct Parents {
    /// The names, row by row, each with the place of the row that names it.
    pub(crate) names: Vec<Dropped>,
    /// Of each row the number behind those of its names.
    pub(crate) ends: Vec<u32>,
}

/// The names that these rows name by `CASCADE`. Places number from a first one, and names from another number.
pub(crate) fn parents_of(
    alloc: Global,
    shapes: &[Shape],
    rows: &[Inserted],
    first: usize,
    from: usize,
) -> Result<Parents, AllocError>
    requires few { first + length rows.now < 2 ^ 32 }
    requires number { from < 2 ^ 32 }
    ensures names { IfOk result (λ parents. parents.names.items ≡ parents_from (rules_over shapes.now) first rows.now) }
    ensures ends { IfOk result (λ parents. parents.ends.items ≡ ends_from (rules_over shapes.now) from rows.now) }
{
    let mut names = Vec::new(alloc);
    let mut ends = Vec::with_capacity(alloc, rows.len())?;
    for number in 0..rows.len() {
        let entry = &rows[number].entry;
        if let Some(shape) = shapes.get(usize::from(entry.table)) {
            push_names(
                &mut names,
                shape.columns.as_slice(),
                entry.values.as_slice(),
                (first + number) as u32,
            )?;
        }
        let end = from + names.len();
        if end > u32::MAX as usize {
            return Err(AllocError);
        }
        ends.push_reserved(end as u32);
    }
    Ok(Parents { names, ends })
}
