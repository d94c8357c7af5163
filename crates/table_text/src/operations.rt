ghost use Rattle.std.specs.Prelude.{◌≡◌, ◌++◌, OnOk, OnErr, codes};
ghost use mathlib.Core.List.{IsPrefix};
ghost use Rattle.table_text.specs.Operations.{table_word, operation_text};
ghost use Rattle.table_text.specs.Values.{values_text};

use crate::NameStyle;
use crate::names::push_row_name;
use crate::numbers::push_number;
use crate::values::push_values;
use schema::Schema;
use std::alloc::AllocError;
use update_model::{Op, Value};

/// Adds an operation at the end as it stands in a transaction: `INSERT`, the table's name and the values, or `DELETE`
/// and the row's name. In place of a table that the schema does not have its number is printed.
pub fn push_operation(
    out: &mut Vec<u8>,
    schema: &Schema,
    style: NameStyle,
    operation: &Op,
) -> Result<(), AllocError>
    ensures added { OnOk result (out.new.items ≡ out.old.items ++ operation_text schema.now.tables style operation.now) }
    ensures kept { OnErr result (IsPrefix out.old.items out.new.items) }
{
    match operation {
        Op::Insert { table, values } => {
            push_insert(out, schema, style, *table, values.as_slice())
        }
        Op::Delete { row } => {
            out.extend_from_slice(b"DELETE ")?;
            push_row_name(out, style, row)
        }
    }
}

/// Adds an insert into the table with this number.
fn push_insert(
    out: &mut Vec<u8>,
    schema: &Schema,
    style: NameStyle,
    table: u8,
    values: &[Value],
) -> Result<(), AllocError>
    ensures added { OnOk result (out.new.items ≡ out.old.items ++ (codes "INSERT " ++ table_word schema.now.tables
        table ++ values_text style values.now)) }
    ensures kept { OnErr result (IsPrefix out.old.items out.new.items) }
{
    out.extend_from_slice(b"INSERT ")?;
    push_table_word(out, schema, table)?;
    push_values(out, style, values)
}

/// Adds the name of the table with this number, or the number where the schema has no such table.
fn push_table_word(out: &mut Vec<u8>, schema: &Schema, number: u8) -> Result<(), AllocError>
    ensures added { OnOk result (out.new.items ≡ out.old.items ++ table_word schema.now.tables number) }
    ensures kept { OnErr result (IsPrefix out.old.items out.new.items) }
{
    if number < schema.tables() {
        out.extend_from_slice(schema.table(number).name.as_slice())
    } else {
        push_number(out, u32::from(number))
    }
}
