//! Tables as JSON.

ghost use Rattle.std.specs.Prelude.{◌≡◌, ◌<◌, ◌∷◌, ◌++◌, IfOk, OnOk, length, slice_get};
ghost use Rattle.std.specs.Fmt.{decimal};
ghost use Rattle.std.specs.List.{zip};
ghost use Rattle.update_model.specs.declared.value.Value.TheVariants.{Row};
ghost use Rattle.table_text.specs.Names.{id_text};
ghost use Rattle.query_answer.specs.Json.{json_list, json_quoted, json_value};
ghost use Rattle.query_answer.specs.Lines.{each_after};
ghost use Rattle.query_answer.specs.TablesJson.{comma_before, json_row, json_table, json_void, next_table};
ghost use Rattle.query_answer.specs.TablesJson.{tables_json_text};

use crate::json_text::{push_later_values, push_quoted};
use itoa::Buffer;
use schema::{Schema, TableDef};
use std::alloc::{AllocError, Global};
use table_model::{ShownRow, ShownRowList, VoidLine};
use table_text::{NameStyle, push_row_name};
use update_model::{RowName, UpdateId};

/// The tables of a schema, each with the rows of the list that has its number, and the updates that do nothing, as one
/// JSON object (RFC 8259) without blanks, and an LF behind it: `{"tables":[{"name":..,"rows":[[name,
/// ..]]}],"voids":[[id, reason, operation]]}`. The names of rows and the ids of updates are texts. A table without a
/// list is not written, nor is a list without a table. It gives up where memory runs out.
pub fn tables_json(
    alloc: Global,
    schema: &Schema,
    lists: &[ShownRowList],
    voids: &[VoidLine],
) -> Result<Vec<u8>, AllocError>
    ensures { IfOk result (λ text. text.items ≡ tables_json_text schema.now.tables lists.now voids.now) }
{
    let mut out = Vec::new(alloc);
    out.extend_from_slice(b"{\"tables\":")?;
    push_filled(alloc, &mut out, schema, lists)?;
    out.extend_from_slice(b",\"voids\":")?;
    push_voids(&mut out, voids)?;
    out.extend_from_slice(b"}\n")?;
    Ok(out)
}

/// Adds the list of the tables that have rows.
fn push_filled(
    alloc: Global,
    out: &mut Vec<u8>,
    schema: &Schema,
    lists: &[ShownRowList],
) -> Result<(), AllocError>
    ensures { OnOk result (out.new.items ≡ out.old.items ++ json_list json_table (zip schema.now.tables lists.now)) }
{
    out.push(b'[')?;
    for number in 0..schema.tables() {
        push_numbered(alloc, out, schema, number, lists)?;
    }
    out.push(b']')?;
    Ok(())
}

/// Adds the table with this number behind those before it, where it has a list.
fn push_numbered(
    alloc: Global,
    out: &mut Vec<u8>,
    schema: &Schema,
    number: u8,
    lists: &[ShownRowList],
) -> Result<(), AllocError>
    requires { number < length schema.now.tables }
    ensures { OnOk result (out.new.items ≡ out.old.items ++ next_table number (slice_get schema.now.tables number)
        (slice_get lists.now number)) }
{
    match lists.get(usize::from(number)) {
        Some(rows) => {
            push_comma(out, number)?;
            push_table(alloc, out, schema.table(number), rows.as_slice())
        }
        None => Ok(()),
    }
}

/// Adds the comma that stands before an item of a list, which the first does not have.
fn push_comma(out: &mut Vec<u8>, number: u8) -> Result<(), AllocError>
    ensures { OnOk result (out.new.items ≡ out.old.items ++ comma_before number) }
{
    if number > 0 {
        out.push(b',')?;
    }
    Ok(())
}

/// Adds a table.
fn push_table(
    alloc: Global,
    out: &mut Vec<u8>,
    table: &TableDef,
    rows: &[ShownRow],
) -> Result<(), AllocError>
    ensures { OnOk result (out.new.items ≡ out.old.items ++ json_table (table.now, rows.now)) }
{
    out.extend_from_slice(b"{\"name\":")?;
    push_quoted(out, table.name.as_slice())?;
    out.extend_from_slice(b",\"rows\":")?;
    push_rows(alloc, out, rows)?;
    out.push(b'}')?;
    Ok(())
}

/// Adds the list of rows.
fn push_rows(alloc: Global, out: &mut Vec<u8>, rows: &[ShownRow]) -> Result<(), AllocError>
    ensures { OnOk result (out.new.items ≡ out.old.items ++ json_list json_row rows.now) }
{
    out.push(b'[')?;
    if let [first, later @ ..] = rows {
        push_row(alloc, out, first)?;
        push_later_rows(alloc, out, later)?;
    }
    out.push(b']')?;
    Ok(())
}

/// Adds rows, each after a comma.
fn push_later_rows(alloc: Global, out: &mut Vec<u8>, rows: &[ShownRow]) -> Result<(), AllocError>
    ensures { OnOk result (out.new.items ≡ out.old.items ++ each_after 44 json_row rows.now) }
{
    for row in rows {
        out.push(b',')?;
        push_row(alloc, out, row)?;
    }
    Ok(())
}

/// Adds a row: its name and its values.
fn push_row(alloc: Global, out: &mut Vec<u8>, row: &ShownRow) -> Result<(), AllocError>
    ensures { OnOk result (out.new.items ≡ out.old.items ++ json_row row.now) }
{
    out.push(b'[')?;
    push_name(alloc, out, &row.name)?;
    push_later_values(alloc, out, row.values.as_slice())?;
    out.push(b']')?;
    Ok(())
}

/// Adds the name of a row.
fn push_name(alloc: Global, out: &mut Vec<u8>, name: &RowName) -> Result<(), AllocError>
    ensures { OnOk result (out.new.items ≡ out.old.items ++ json_value (Row name.now)) }
{
    let mut text = Vec::new(alloc);
    push_row_name(&mut text, NameStyle::Full, name)?;
    push_quoted(out, text.as_slice())
}

/// Adds the list of updates that do nothing.
fn push_voids(out: &mut Vec<u8>, voids: &[VoidLine]) -> Result<(), AllocError>
    ensures { OnOk result (out.new.items ≡ out.old.items ++ json_list json_void voids.now) }
{
    out.push(b'[')?;
    if let [first, later @ ..] = voids {
        push_void(out, first)?;
        push_later_voids(out, later)?;
    }
    out.push(b']')?;
    Ok(())
}

/// Adds updates that do nothing, each after a comma.
fn push_later_voids(out: &mut Vec<u8>, voids: &[VoidLine]) -> Result<(), AllocError>
    ensures { OnOk result (out.new.items ≡ out.old.items ++ each_after 44 json_void voids.now) }
{
    for line in voids {
        out.push(b',')?;
        push_void(out, line)?;
    }
    Ok(())
}

/// Adds an update that does nothing: its id, the reason and the operation's number.
fn push_void(out: &mut Vec<u8>, line: &VoidLine) -> Result<(), AllocError>
    ensures { OnOk result (out.new.items ≡ out.old.items ++ json_void line.now) }
{
    out.push(b'[')?;
    push_id(out, &line.id)?;
    push_later_number(out, u32::from(line.reason))?;
    push_later_number(out, u32::from(line.operation))?;
    out.push(b']')?;
    Ok(())
}

/// Adds the id of an update, as a text.
fn push_id(out: &mut Vec<u8>, id: &UpdateId) -> Result<(), AllocError>
    ensures { OnOk result (out.new.items ≡ out.old.items ++ json_quoted (id_text id.now)) }
{
    let mut digits = [0u8; 64];
    let _ = hex::encode_to_slice(id.0, &mut digits);
    push_quoted(out, &digits)
}

/// Adds a number after a comma.
fn push_later_number(out: &mut Vec<u8>, number: u32) -> Result<(), AllocError>
    ensures { OnOk result (out.new.items ≡ out.old.items ++ 44 ∷ decimal number) }
{
    let mut buffer = Buffer::new();
    out.push(b',')?;
    out.extend_from_slice(buffer.format(number).as_bytes())
}
