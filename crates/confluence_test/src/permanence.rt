//! Which tables are permanent: no row of theirs can vanish.

ghost use Rattle.std.specs.Prelude.{◌≡◌, IfOk};
ghost use Rattle.schema.specs.Columns.{target_of};
ghost use Rattle.confluence_test.specs.Plans.{keeps, all_keep, is_permanent_by, permanent_at, SaysPermanent};
ghost use Rattle.table_model.specs.Visible.{bare_rules};

use crate::columns::{table_of, target_of};
use schema::{Action, Column, Schema, TableDef};
use std::alloc::{AllocError, Global};

/// Of each table whether it is permanent: it is not `DELETABLE`, keeps no least row, and each other table that it
/// refers to by `CASCADE` is permanent.
pub(crate) fn permanent_tables(alloc: Global, schema: &Schema) -> Result<Vec<bool>, AllocError>
    ensures { IfOk result (λ permanence. SaysPermanent (bare_rules schema.now.tables) permanence.items) }
{
    let tables = schema.tables();
    let mut permanence = Vec::with_capacity(alloc, usize::from(tables))?;
    for number in 0..tables {
        let permanent = is_permanent_by(permanence.as_slice(), number, table_of(schema, number));
        permanence.push(permanent)?;
    }
    Ok(permanence)
}

/// Whether a table is permanent, where it is known of those before it.
fn is_permanent_by(permanence: &[bool], number: u8, table: &TableDef) -> bool
    ensures { result ≡ is_permanent_by permanence.now number table.now }
{
    !table.deletable
        && table.kept.is_none()
        && all_keep(permanence, number, table.columns.as_slice())
}

/// Whether each reference of a table keeps it permanent.
fn all_keep(permanence: &[bool], number: u8, columns: &[Column]) -> bool
    ensures { result ≡ all_keep permanence.now number columns.now }
{
    columns
        .iter()
        .all(|column| keeps(permanence, number, column))
}

/// Whether a reference of a table keeps it permanent.
fn keeps(permanence: &[bool], number: u8, column: &Column) -> bool
    ensures { result ≡ keeps permanence.now number (target_of column.now.kind) }
{
    match target_of(column) {
        Some((target, Action::Cascade)) => target == number || permanent_at(permanence, target),
        _ => true,
    }
}

/// What a list says of a table: whether it is permanent.
pub(crate) fn permanent_at(permanence: &[bool], table: u8) -> bool
    ensures { result ≡ permanent_at permanence.now table }
{
    match permanence.get(usize::from(table)) {
        Some(permanent) => *permanent,
        None => false,
    }
}
