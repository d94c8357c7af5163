//! Why a row may not be deleted.

ghost use Rattle.std.specs.Prelude.{◌≡◌, IfOk, slice_get, option_copied};
ghost use Rattle.std.specs.List.{list_any};
ghost use Rattle.schema.specs.Data.{Meaning};
ghost use Rattle.table_model.specs.Verdicts.{same_author};
ghost use Rattle.table_model.specs.Visible.{rules_with, same_row};
ghost use Rattle.validity.specs.Asked.{delete_asked, is_anothers, is_deletable};

use crate::referring::is_row;
use schema::{Schema, TableDef};
use std::alloc::{AllocError, Global};
use table_model::reason;
use update_model::{AuthorKey, RowEntry, RowName, RowsAt};

/// The number of the first reason for which this author may not delete a row, from 6 to 8, where the update has deleted
/// these names already, or `None` where he may.
pub(crate) fn delete_reason<Q: RowsAt>(
    alloc: Global,
    schema: &Schema,
    author: &AuthorKey,
    name: &RowName,
    deleted: &[RowName],
    rows: &Q,
) -> Result<Option<u8>, AllocError>
    ensures { IfOk result (λ reason. (ask : Meaning) → reason ≡ delete_asked (rules_with ask schema.now.tables)
        (Q.RowsAt.row rows.now) (Q.RowsAt.has_child rows.now) deleted.now author.now name.now) }
{
    let Some(row) = rows.row_at(alloc, name)? else {
        return Ok(Some(reason::NOT_DELETABLE));
    };
    if !is_deletable(schema, row) || is_among(name, deleted) {
        return Ok(Some(reason::NOT_DELETABLE));
    }
    if is_anothers(schema, author, row) {
        return Ok(Some(reason::NOT_OWNER));
    }
    if rows.restrict_child(alloc, name)? {
        return Ok(Some(reason::RESTRICTED));
    }
    Ok(None)
}

/// Whether a name is among these.
fn is_among(name: &RowName, names: &[RowName]) -> bool
    ensures { result ≡ list_any (same_row name.now) names.now }
{
    names.iter().any(|other| is_row(name, other))
}

/// Whether rows of a row's table may be deleted.
fn is_deletable(schema: &Schema, row: &RowEntry) -> bool
    ensures { (ask : Meaning) → result ≡ is_deletable (rules_with ask schema.now.tables) (Some row.now) }
{
    table_at(schema, row.table).is_some_and(|table| table.deletable)
}

/// Whether only another author may delete a row.
fn is_anothers(schema: &Schema, author: &AuthorKey, row: &RowEntry) -> bool
    ensures { (ask : Meaning) → result ≡ is_anothers (rules_with ask schema.now.tables) author.now (Some row.now) }
{
    table_at(schema, row.table).is_some_and(|table| table.owned) && !is_author(&row.author, author)
}

/// The table with this number, where there is one.
pub(crate) fn table_at(schema: &Schema, number: u8) -> Option<&TableDef>
    ensures { option_copied result ≡ slice_get schema.now.tables number }
{
    if number < schema.tables() {
        Some(schema.table(number))
    } else {
        None
    }
}

/// Whether two keys are one.
fn is_author(a: &AuthorKey, b: &AuthorKey) -> bool
    ensures { result ≡ same_author a.now b.now }
{
    a == b
}
