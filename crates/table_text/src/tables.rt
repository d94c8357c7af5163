ghost use Rattle.std.specs.Prelude.{◌≡◌, ◌++◌, ◌<◌, OnOk, OnErr, length, slice_get};
ghost use mathlib.Core.List.{IsPrefix};
ghost use Rattle.std.specs.List.{flat_map};
ghost use Rattle.table_text.specs.Tables.{row_text, table_text, void_text, pair_text, filled_text, tables_text};

use crate::NameStyle;
use crate::names::{push_id, push_row_name};
use crate::numbers::push_spaced;
use crate::values::push_values;
use schema::{Schema, TableDef};
use std::alloc::AllocError;
use table_model::{ShownRow, ShownRowList, VoidLine};

/// Adds the tables of a schema at the end, each with the rows of the list that has its number, and then the updates
/// that do nothing. A table without a list is not printed, nor is a list without a table.
pub fn push_tables(
    out: &mut Vec<u8>,
    schema: &Schema,
    lists: &[ShownRowList],
    voids: &[VoidLine],
) -> Result<(), AllocError>
    ensures added { OnOk result (out.new.items ≡ out.old.items ++ tables_text schema.now.tables lists.now voids.now) }
    ensures kept { OnErr result (IsPrefix out.old.items out.new.items) }
{
    push_filled(out, schema, lists)?;
    push_voids(out, voids)
}

/// Adds the lines of updates that do nothing.
fn push_voids(out: &mut Vec<u8>, voids: &[VoidLine]) -> Result<(), AllocError>
    ensures added { OnOk result (out.new.items ≡ out.old.items ++ flat_map void_text voids.now) }
    ensures kept { OnErr result (IsPrefix out.old.items out.new.items) }
{
    for line in voids {
        push_void(out, line)?;
    }
    Ok(())
}

/// Adds a table at the end: a line `TABLE` and its name, then for each row a line of its name and its values.
pub fn push_table(out: &mut Vec<u8>, table: &TableDef, rows: &[ShownRow]) -> Result<(), AllocError>
    ensures added { OnOk result (out.new.items ≡ out.old.items ++ table_text table.now rows.now) }
    ensures kept { OnErr result (IsPrefix out.old.items out.new.items) }
{
    out.extend_from_slice(b"TABLE ")?;
    out.extend_from_slice(table.name.as_slice())?;
    out.push(b'\n')?;
    push_rows(out, rows)
}

/// Adds the line of an update that does nothing at the end: `VOID`, its id, the reason, and the operation's number.
pub fn push_void(out: &mut Vec<u8>, line: &VoidLine) -> Result<(), AllocError>
    ensures added { OnOk result (out.new.items ≡ out.old.items ++ void_text line.now) }
    ensures kept { OnErr result (IsPrefix out.old.items out.new.items) }
{
    out.extend_from_slice(b"VOID ")?;
    push_id(out, &line.id)?;
    push_spaced(out, u32::from(line.reason))?;
    push_spaced(out, u32::from(line.operation))?;
    out.extend_from_slice(b"\n")
}

/// Adds each table with its rows.
fn push_filled(out: &mut Vec<u8>, schema: &Schema, lists: &[ShownRowList]) -> Result<(), AllocError>
    ensures added { OnOk result (out.new.items ≡ out.old.items ++ filled_text schema.now.tables lists.now) }
    ensures kept { OnErr result (IsPrefix out.old.items out.new.items) }
{
    for number in 0..schema.tables() {
        push_numbered(out, schema, number, lists)?;
    }
    Ok(())
}

/// Adds the table with this number, where it has a list.
fn push_numbered(
    out: &mut Vec<u8>,
    schema: &Schema,
    number: u8,
    lists: &[ShownRowList],
) -> Result<(), AllocError>
    requires { number < length schema.now.tables }
    ensures added { OnOk result (out.new.items ≡ out.old.items ++ pair_text (slice_get schema.now.tables number)
        (slice_get lists.now number)) }
    ensures kept { OnErr result (IsPrefix out.old.items out.new.items) }
{
    match lists.get(usize::from(number)) {
        Some(rows) => push_table(out, schema.table(number), rows.as_slice()),
        None => Ok(()),
    }
}

/// Adds the lines of rows.
fn push_rows(out: &mut Vec<u8>, rows: &[ShownRow]) -> Result<(), AllocError>
    ensures added { OnOk result (out.new.items ≡ out.old.items ++ flat_map row_text rows.now) }
    ensures kept { OnErr result (IsPrefix out.old.items out.new.items) }
{
    for row in rows {
        push_row(out, row)?;
    }
    Ok(())
}

/// Adds the line of a row.
fn push_row(out: &mut Vec<u8>, row: &ShownRow) -> Result<(), AllocError>
    ensures added { OnOk result (out.new.items ≡ out.old.items ++ row_text row.now) }
    ensures kept { OnErr result (IsPrefix out.old.items out.new.items) }
{
    push_row_name(out, NameStyle::Full, &row.name)?;
    push_values(out, NameStyle::Full, row.values.as_slice())?;
    out.extend_from_slice(b"\n")
}
