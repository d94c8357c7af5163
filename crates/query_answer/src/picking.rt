//! The columns that a query asks for.

ghost use Rattle.std.specs.Prelude.{◌≡◌, IfOk, List, map};
ghost use Rattle.query_answer.specs.Answers.{picked, keys_of};
ghost use Rattle.table_model.specs.declared.shown_row.ShownRow.{ShownRow as Shown};
ghost use Rattle.query_answer.specs.Rows.{AreListsOf, shown_row, told};

use crate::found::FoundValue;
use crate::line::Line;
use crate::rows::{Row, Rows};
use crate::values::value_of;
use query::{Item, Key};
use std::alloc::{AllocError, Global};
use update_model::{ByteList, ValueList};

/// The values of the keys.
pub(crate) fn keys_of<'a>(
    alloc: Global,
    rows: Rows<'a>,
    keys: &[Key],
    row: &Row<'a>,
) -> Result<Vec<FoundValue<'a>>, AllocError>
    ensures { IfOk result (λ values. (lists : List (List Shown)) → AreListsOf rows.entry lists
        → map told values.items ≡ keys_of lists keys.now (shown_row row.now)) }
{
    let mut values = Vec::with_capacity(alloc, keys.len())?;
    for key in keys {
        values.push(value_of(rows, row, key.source))?;
    }
    Ok(values)
}

/// The names of the columns.
pub(crate) fn names_of(alloc: Global, items: &[Item]) -> Result<Vec<ByteList>, AllocError>
    ensures { IfOk result (λ names. names.items ≡ map (λ item. item.name) items.now) }
{
    let mut names = Vec::with_capacity(alloc, items.len())?;
    for item in items {
        names.push(item.name.copy(alloc)?)?;
    }
    Ok(names)
}

/// What a row has in the columns.
fn picked(alloc: Global, rows: Rows, items: &[Item], row: &Row) -> Result<ValueList, AllocError>
    ensures { IfOk result (λ values. (lists : List (List Shown)) → AreListsOf rows.entry lists
        → values ≡ picked lists items.now (shown_row row.now)) }
{
    let mut values = Vec::with_capacity(alloc, items.len())?;
    for item in items {
        let found = value_of(rows, row, item.source);
        values.push(found.copy(alloc)?)?;
    }
    Ok(ValueList::from_vec(values))
}

/// What rows have in the columns.
pub(crate) fn picked_rows(
    alloc: Global,
    rows: Rows,
    items: &[Item],
    lines: &[Line],
) -> Result<Vec<ValueList>, AllocError>
    ensures { IfOk result (λ values. (lists : List (List Shown)) → AreListsOf rows.entry lists
        → values.items ≡ map (λ line. picked lists items.now (shown_row line.row)) lines.now) }
{
    let mut values = Vec::with_capacity(alloc, lines.len())?;
    for line in lines {
        values.push(picked(alloc, rows, items, &line.row)?)?;
    }
    Ok(values)
}
