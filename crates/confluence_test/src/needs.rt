//! The rows that other rows need.

ghost use Rattle.std.specs.Prelude.{◌≡◌, ℕ, ◌<◌, ◌≤◌, IfOk, OnOk, length};
ghost use Rattle.confluence_laws.specs.Examples.{has_table, need, needed_but, for_each, base_of};
ghost use Rattle.table_model.specs.Visible.{table_of, bare_rules};
ghost use Rattle.confluence_test.specs.Plans.{AreOnce};

use crate::chain::Chain;
use crate::columns::{needed_by, table_of};
use crate::filling::item_of;
use schema::Schema;
use std::alloc::{AllocError, Global};

/// Puts a needed row of this table at the end of a chain that has none, after those that it needs in turn. References
/// are followed this deep; they lead to lower tables, so a table's number is deep enough.
#[cycle(needs)]
pub(crate) fn need(
    alloc: Global,
    schema: &Schema,
    depth: u8,
    chain: &mut Chain,
    table: u8,
) -> Result<(), AllocError>
    requires table { table < length schema.now.tables }
    requires once { AreOnce (length schema.now.tables) chain.old }
    ensures needed { OnOk result (chain.new ≡ need (bare_rules schema.now.tables) depth chain.old table) }
    ensures once { OnOk result (AreOnce (length schema.now.tables) chain.new) }
{
    if depth == 0 || chain.has_table(table) {
        return Ok(());
    }
    need_all_but(alloc, schema, depth - 1, chain, table, None)?;
    let row = item_of(alloc, schema, chain, table)?;
    chain.push(row)?;
    Ok(())
}

/// Puts what a table's rows need at the end of a chain: a row for each reference that may not be null, but for the
/// column with this number, if any. They are all of earlier tables.
#[cycle(needs)]
pub(crate) fn need_all_but(
    alloc: Global,
    schema: &Schema,
    depth: u8,
    chain: &mut Chain,
    table: u8,
    skip: Option<u8>,
) -> Result<(), AllocError>
    requires table { table < length schema.now.tables }
    requires once { AreOnce (length schema.now.tables) chain.old }
    ensures needed { OnOk result (chain.new ≡ for_each (need (bare_rules schema.now.tables) depth)
        (needed_but skip 0 (table_of (bare_rules schema.now.tables) table).columns) chain.old) }
    ensures once { OnOk result (AreOnce (length schema.now.tables) chain.new) }
    ensures few { OnOk result (length chain.new ≤ 16) }
    ensures earlier { OnOk result ((other : ℕ) → table ≤ other → has_table chain.new other ≡ has_table chain.old other) }
{
    let columns = table_of(schema, table).columns.as_slice();
    for (number, column) in columns.iter().enumerate() {
        if let Some(target) = needed_by(skip, number, column) {
            need(alloc, schema, depth, chain, target)?;
        }
    }
    Ok(())
}

/// The chain of all that the rows of a table need.
pub(crate) fn base_of(alloc: Global, schema: &Schema, table: u8) -> Result<Chain, AllocError>
    requires table { table < length schema.now.tables }
    ensures needed { IfOk result (λ chain. chain ≡ base_of (bare_rules schema.now.tables) table) }
    ensures few { IfOk result (λ chain. length chain ≤ 16) }
{
    let mut chain = Chain::new(alloc);
    need_all_but(alloc, schema, table, &mut chain, table, None)?;
    Ok(chain)
}
