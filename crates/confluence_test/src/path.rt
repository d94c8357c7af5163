//! The path along which a row can vanish: it names the next row by `CASCADE`, and so on to one that can be deleted.

ghost use Rattle.std.specs.Prelude.{◌≡◌, ◌<◌, ◌≤◌, ◌+◌, [], ◌++◌, All, IfOk, OnOk, IfSome, Some, length, reverse};
ghost use Rattle.std.specs.List.{AllByRecursion};
ghost use Rattle.schema.specs.Columns.{target_of};
ghost use Rattle.confluence_laws.specs.Examples.{path_from, path_items, shared_of};
ghost use Rattle.schema.specs.Sound.{IsSoundColumn};
ghost use Rattle.table_model.specs.Visible.{table_of, bare_rules};
ghost use Rattle.confluence_test.specs.Plans.{AreOnce, SaysPermanent, AreBelow, next_step_by, step_to};

use crate::chain::{Chain, PlannedRow};
use crate::columns::{table_of, target_of};
use crate::filling::item_naming;
use crate::needs::need_all_but;
use crate::permanence::permanent_at;
use schema::{Action, Column, Schema};
use std::alloc::{AllocError, Global};
use std::marker::Model;

/// A row of the path.
#[derive(Drop)]
pub(crate) struct PathStep {
    /// The number of its table.
    pub(crate) table: u8,
    /// The column by which it names the next row, or none where it can be deleted.
    pub(crate) column: Option<u8>,
}

impl Model for PathStep {
    ghost use Rattle.confluence_laws.specs.Examples.{Step};

    ghost Value = { Step };

    ghost view = { λ step. record { table = step.table; column = step.column } };
}

/// The path from a table's row, its end first.
pub(crate) fn path_back(
    alloc: Global,
    schema: &Schema,
    permanence: &[bool],
    table: u8,
) -> Result<Vec<PathStep>, AllocError>
    requires table { table < length schema.now.tables }
    requires permanence { SaysPermanent (bare_rules schema.now.tables) permanence.now }
    ensures steps { IfOk result (λ steps. reverse steps.items ≡ path_from (bare_rules schema.now.tables) (table + 1)
        table) }
    ensures below { IfOk result (λ steps. AreBelow (length schema.now.tables) steps.items) }
    ensures few { IfOk result (λ steps. length steps.items ≤ 16) }
{
    let _tables = schema.tables(); // there are at most 16 tables
    let mut steps = Vec::new(alloc);
    follow(schema, permanence, table + 1, &mut steps, table)?;
    steps.reverse();
    Ok(steps)
}

/// Puts the path from a table's row behind the steps before it. References are followed this deep.
fn follow(
    schema: &Schema,
    permanence: &[bool],
    depth: u8,
    steps: &mut Vec<PathStep>,
    table: u8,
) -> Result<(), AllocError>
    requires table { table < length schema.now.tables }
    requires permanence { SaysPermanent (bare_rules schema.now.tables) permanence.now }
    ensures steps { OnOk result (steps.new.items ≡ steps.old.items ++ path_from (bare_rules schema.now.tables) depth
        table) }
{
    if depth == 0 {
        return Ok(());
    }
    let of = table_of(schema, table);
    if of.deletable {
        let column = None;
        steps.push(PathStep { table, column })?;
        return Ok(());
    }
    match next_step(permanence, table, of.columns.as_slice()) {
        None => Ok(()),
        Some((column, target)) => {
            let column = Some(column);
            steps.push(PathStep { table, column })?;
            follow(schema, permanence, depth - 1, steps, target)?;
            Ok(())
        }
    }
}

/// The first reference by `CASCADE` to another table that is not permanent: its column and that table.
fn next_step(permanence: &[bool], table: u8, columns: &[Column]) -> Option<(u8, u8)>
    requires { length columns.now ≤ 16 }
    ensures { result ≡ next_step_by permanence.now table 0 columns.now }
{
    for (number, column) in columns.iter().enumerate() {
        if let Some(target) = step_by(permanence, table, column) {
            return Some((number as u8, target));
        }
    }
    None
}

/// The table that a column of a table refers to, where that is by `CASCADE`, and to another table that is not
/// permanent.
fn step_by(permanence: &[bool], table: u8, column: &Column) -> Option<u8>
    ensures { result ≡ step_to permanence.now table (target_of column.now.kind) }
{
    match target_of(column) {
        Some((target, Action::Cascade)) if target != table && !permanent_at(permanence, target) => {
            Some(target)
        }
        _ => None,
    }
}

/// The rows that the path's rows and the row that names the path share: what the path's rows need, from its end, and
/// then what the row of this table needs, which names the path in this column.
pub(crate) fn shared_of(
    alloc: Global,
    schema: &Schema,
    back: &[PathStep],
    table: u8,
    column: u8,
) -> Result<Chain, AllocError>
    requires table { table < length schema.now.tables }
    requires back { AreBelow (length schema.now.tables) back.now }
    ensures shared { IfOk result (λ shared. shared ≡ shared_of (bare_rules schema.now.tables) (reverse back.now) table
        column) }
    ensures few { IfOk result (λ shared. length shared ≤ 16) }
{
    let mut shared = Chain::new(alloc);
    for step in back {
        need_all_but(alloc, schema, table, &mut shared, step.table, step.column)?;
    }
    need_all_but(alloc, schema, table, &mut shared, table, Some(column))?;
    Ok(shared)
}

/// The rows of the path, its end first, after the rows that they share.
pub(crate) fn path_rows(
    alloc: Global,
    schema: &Schema,
    shared: &Chain,
    back: &[PathStep],
) -> Result<Vec<PlannedRow>, AllocError>
    requires back { AreBelow (length schema.now.tables) back.now }
    requires few { length shared.now + length back.now < 256 }
    ensures rows { IfOk result (λ rows. reverse rows.items ++ shared.now ≡ path_items (bare_rules schema.now.tables)
        shared.now (reverse back.now)) }
    ensures many { IfOk result (λ rows. length rows.items ≡ length back.now) }
{
    let mut rows = Vec::with_capacity(alloc, back.len())?;
    for step in back {
        let older = shared.len() + rows.len();
        rows.push(item_naming(alloc, schema, shared, step.table, step.column, older)?)?;
    }
    Ok(rows)
}
