//! The tables of a page.

ghost use Rattle.std.specs.Prelude.{◌≡◌, ◌++◌, ◌<◌, OnOk, length, slice_get};
ghost use Rattle.std.specs.List.{flat_map};
ghost use Rattle.page_text.specs.Parts.{each_listed, head_cell, heads_begin, listed, none_part, row_part, table_head};
ghost use Rattle.page_text.specs.Parts.{table_part, table_title};

use crate::cells::push_cells;
use crate::numbers::push_short_name;
use schema::{Column, Schema, TableDef};
use std::alloc::AllocError;
use table_model::{ShownRow, ShownRowList};
use table_text::{NameStyle, push_row_name};

/// Adds each table with its rows.
pub(crate) fn push_tables(
    out: &mut Vec<u8>,
    schema: &Schema,
    lists: &[ShownRowList],
) -> Result<(), AllocError>
    ensures { OnOk result (out.new.items ≡ out.old.items ++ each_listed table_part schema.now.tables lists.now) }
{
    for number in 0..schema.tables() {
        push_numbered(out, schema, number, lists)?;
    }
    Ok(())
}

/// Adds the table with this number, if it has a list.
fn push_numbered(
    out: &mut Vec<u8>,
    schema: &Schema,
    number: u8,
    lists: &[ShownRowList],
) -> Result<(), AllocError>
    requires { number < length schema.now.tables }
    ensures { OnOk result (out.new.items ≡ out.old.items ++ listed table_part (slice_get schema.now.tables number)
        (slice_get lists.now number)) }
{
    match lists.get(usize::from(number)) {
        Some(rows) => push_table(out, schema.table(number), rows.as_slice()),
        None => Ok(()),
    }
}

/// Adds a table with its rows.
#[tactic(auto, unfolding(crate::specs::Parts::table_part))]
fn push_table(out: &mut Vec<u8>, table: &TableDef, rows: &[ShownRow]) -> Result<(), AllocError>
    ensures { OnOk result (out.new.items ≡ out.old.items ++ table_part table.now rows.now) }
{
    push_table_head(out, table)?;
    push_rows(out, rows)?;
    out.extend_from_slice(b"</table>\n")?;
    out.extend_from_slice(none_part(rows))
}

/// What says that a table has no rows, if so.
fn none_part(rows: &[ShownRow]) -> &'static [u8]
    ensures { result.now ≡ none_part rows.now }
{
    match rows {
        [] => b"<p>No rows.</p>\n",
        _ => b"",
    }
}

/// Adds the name of a table, and the heads of its columns.
#[tactic(auto, unfolding(crate::specs::Parts::table_head))]
fn push_table_head(out: &mut Vec<u8>, table: &TableDef) -> Result<(), AllocError>
    ensures { OnOk result (out.new.items ≡ out.old.items ++ table_head table.now) }
{
    push_table_title(out, table.name.as_slice())?;
    push_heads(out, table.columns.as_slice())?;
    out.extend_from_slice(b"</tr>\n")
}

/// Adds the name of a table.
#[tactic(auto, unfolding(crate::specs::Parts::table_title))]
fn push_table_title(out: &mut Vec<u8>, name: &[u8]) -> Result<(), AllocError>
    ensures { OnOk result (out.new.items ≡ out.old.items ++ table_title name.now) }
{
    out.extend_from_slice(b"<h2>")?;
    out.extend_from_slice(name)?;
    out.extend_from_slice(heads_begin())
}

/// The head of the names of rows, which stands before those of the columns.
#[tactic(auto, unfolding(crate::specs::Parts::heads_begin))]
fn heads_begin() -> &'static [u8]
    ensures { result.now ≡ heads_begin }
{
    b"</h2>\n<table><tr><th>row</th>"
}

/// Adds the heads of columns.
fn push_heads(out: &mut Vec<u8>, columns: &[Column]) -> Result<(), AllocError>
    ensures { OnOk result (out.new.items ≡ out.old.items ++ flat_map head_cell columns.now) }
{
    for column in columns {
        push_head(out, column)?;
    }
    Ok(())
}

/// Adds the head of a column.
fn push_head(out: &mut Vec<u8>, column: &Column) -> Result<(), AllocError>
    ensures { OnOk result (out.new.items ≡ out.old.items ++ head_cell column.now) }
{
    out.extend_from_slice(b"<th>")?;
    out.extend_from_slice(column.name.as_slice())?;
    out.extend_from_slice(b"</th>")
}

/// Adds the lines of rows.
fn push_rows(out: &mut Vec<u8>, rows: &[ShownRow]) -> Result<(), AllocError>
    ensures { OnOk result (out.new.items ≡ out.old.items ++ flat_map row_part rows.now) }
{
    for row in rows {
        push_row(out, row)?;
    }
    Ok(())
}

/// Adds the line of a row.
#[tactic(auto, unfolding(crate::specs::Parts::row_part))]
fn push_row(out: &mut Vec<u8>, row: &ShownRow) -> Result<(), AllocError>
    ensures { OnOk result (out.new.items ≡ out.old.items ++ row_part row.now) }
{
    out.extend_from_slice(b"<tr id=\"r")?;
    push_row_name(out, NameStyle::Full, &row.name)?;
    out.extend_from_slice(b"\"><td>")?;
    push_short_name(out, &row.name)?;
    out.extend_from_slice(b"</td>")?;
    push_cells(out, row.values.as_slice())?;
    out.extend_from_slice(b"</tr>\n")
}
