//! The rows that are planned.

ghost use Rattle.std.specs.Prelude.{◌≡◌, ◌<◌, IfOk, length, cond};
ghost use Rattle.update_model.specs.declared.value.Value.TheVariants.{Row};
ghost use Rattle.schema.specs.Columns.{target_of};
ghost use Rattle.confluence_laws.specs.Examples.{fill, filled_but, item_naming, item_of};
ghost use Rattle.table_model.specs.Visible.{bare_rules};

use crate::chain::{Chain, PlannedRow};
use crate::columns::{is_skipped, table_of, target_of};
use crate::nodes::row_numbered;
use schema::{Column, Schema};
use std::alloc::{AllocError, Global};
use update_model::{RowName, Value, ValueList};

/// What a needed row has in a column: a reference is null where it may be, and else names the chain's row of the table
/// that it refers to. Any other column has the sample's value.
fn fill(alloc: Global, chain: &Chain, column: &Column, sample: &Value) -> Result<Value, AllocError>
    requires { length chain.now < 256 }
    ensures { IfOk result (λ v. v ≡ fill chain.now column.now.null (target_of column.now.kind) sample.now) }
{
    match target_of(column) {
        None => sample.copy(alloc),
        Some(_) if column.null => Ok(Value::Null),
        Some((target, _)) => Ok(Value::Row(chain.name_in(target))),
    }
}

/// What a row has in a column: this name, where the column is the one that has it, and else what a needed row has.
fn value_in(
    alloc: Global,
    chain: &Chain,
    column: &Column,
    sample: &Value,
    is_named: bool,
    name: RowName,
) -> Result<Value, AllocError>
    requires { length chain.now < 256 }
    ensures { IfOk result (λ v. v ≡ cond is_named (Row name) (fill chain.now column.now.null (target_of column.now.kind)
        sample.now)) }
{
    if is_named {
        return Ok(Value::Row(name));
    }
    fill(alloc, chain, column, sample)
}

/// What a row has in each column: what a needed row has, but for one column, if any, which has this name.
fn filled_but(
    alloc: Global,
    chain: &Chain,
    skip: Option<u8>,
    name: RowName,
    columns: &[Column],
    sample: &[Value],
) -> Result<Vec<Value>, AllocError>
    requires { length chain.now < 256 }
    ensures { IfOk result (λ values. values.items ≡ filled_but chain.now skip name 0 columns.now sample.now) }
{
    let mut values = Vec::with_capacity(alloc, columns.len())?;
    for (number, column) in columns.iter().enumerate() {
        let Some(plain) = sample.get(number) else {
            return Ok(values);
        };
        values.push(value_in(alloc, chain, column, plain, is_skipped(skip, number), name)?)?;
    }
    Ok(values)
}

/// A row of a table that names in one column, if any, the row that the update with this number inserts.
pub(crate) fn item_naming(
    alloc: Global,
    schema: &Schema,
    chain: &Chain,
    table: u8,
    column: Option<u8>,
    number: usize,
) -> Result<PlannedRow, AllocError>
    requires table { table < length schema.now.tables }
    requires chain { length chain.now < 256 }
    requires number { number < 256 }
    ensures { IfOk result (λ row. row ≡ item_naming (bare_rules schema.now.tables) chain.now table column number) }
{
    let of = table_of(schema, table);
    let columns = of.columns.as_slice();
    let sample = of.sample.as_slice();
    let name = row_numbered(number);
    let values = filled_but(alloc, chain, column, name, columns, sample)?;
    Ok(PlannedRow {
        table,
        values: ValueList::from_vec(values),
    })
}

/// A row of a table, after a chain that has what it needs.
pub(crate) fn item_of(
    alloc: Global,
    schema: &Schema,
    chain: &Chain,
    table: u8,
) -> Result<PlannedRow, AllocError>
    requires table { table < length schema.now.tables }
    requires chain { length chain.now < 256 }
    ensures { IfOk result (λ row. row ≡ item_of (bare_rules schema.now.tables) chain.now table) }
{
    let row = item_naming(alloc, schema, chain, table, None, 0)?;
    Ok(row)
}
