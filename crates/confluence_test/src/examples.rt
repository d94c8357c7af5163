//! The counterexamples.

ghost use Rattle.std.specs.Prelude.{◌≡◌, ◌<◌, ◌≤◌, ◌+◌, ◌-◌, [], ◌∷◌, ◌++◌, IfOk, OnOk, length, reverse};
ghost use Rattle.confluence_laws.specs.Examples.{example_of, unique_example, at_most_example, restrict_example};
ghost use Rattle.confluence_laws.specs.Examples.{twice_after, split_after, copies};
ghost use Rattle.confluence_test.specs.Findings.{claim_of, IsFlaw};
ghost use Rattle.confluence_test.specs.Plans.{SaysPermanent};
ghost use Rattle.table_model.specs.Visible.{bare_rules};

use crate::chain::{Chain, PlannedRow};
use crate::filling::{item_naming, item_of};
use crate::finding::Flaw;
use crate::needs::base_of;
use crate::nodes::{after, one_after, row_numbered};
use crate::path::{path_back, path_rows, shared_of};
use schema::Schema;
use std::alloc::{AllocError, Global};
use table_model::{Counterexample, NodeList};
use update_model::{Node, Op};

/// The counterexample of an invariant that is refused.
pub(crate) fn example_of(
    alloc: Global,
    schema: &Schema,
    permanence: &[bool],
    flaw: Flaw,
) -> Result<Counterexample, AllocError>
    requires flaw { IsFlaw (length schema.now.tables) flaw }
    requires permanence { SaysPermanent (bare_rules schema.now.tables) permanence.now }
    ensures { IfOk result (λ example. example ≡ example_of (bare_rules schema.now.tables) (claim_of flaw)) }
{
    match flaw {
        Flaw::Doubles { table, .. } => unique_example(alloc, schema, table),
        Flaw::TooMany { table, count } => at_most_example(alloc, schema, table, count),
        Flaw::Dangles {
            table,
            column,
            target,
        } => restrict_example(alloc, schema, permanence, table, column, target),
    }
}

/// Of a `UNIQUE`: after what the table's rows need, each side inserts one.
fn unique_example(alloc: Global, schema: &Schema, table: u8) -> Result<Counterexample, AllocError>
    requires { table < length schema.now.tables }
    ensures { IfOk result (λ example. example ≡ unique_example (bare_rules schema.now.tables) table) }
{
    let base = base_of(alloc, schema, table)?;
    let row = item_of(alloc, schema, &base, table)?;
    twice_after(alloc, &base, row)
}

/// Of an `ATMOST`: after what the table's rows need and one row less than may be, each side inserts one.
fn at_most_example(
    alloc: Global,
    schema: &Schema,
    table: u8,
    count: u8,
) -> Result<Counterexample, AllocError>
    requires table { table < length schema.now.tables }
    requires some { 1 ≤ count }
    requires few { count ≤ 64 }
    ensures { IfOk result (λ example. example ≡ at_most_example (bare_rules schema.now.tables) table count) }
{
    let mut base = base_of(alloc, schema, table)?;
    let row = item_of(alloc, schema, &base, table)?;
    push_copies(alloc, &mut base, count - 1, &row)?;
    twice_after(alloc, &base, row)
}

/// Puts the same row so many times at the end of a chain.
#[tactic(auto, using(crate::proofs::Chains::copies_next))]
fn push_copies(
    alloc: Global,
    chain: &mut Chain,
    count: u8,
    row: &PlannedRow,
) -> Result<(), AllocError>
    ensures { OnOk result (chain.new ≡ copies count row.now chain.old) }
{
    for _ in 0..count {
        chain.push(row.copy(alloc)?)?;
    }
    Ok(())
}

/// Of a `RESTRICT`: after the shared rows and the path, one side inserts a row that names the path's row of the table
/// that the reference is to, and the other deletes the row at the path's end.
fn restrict_example(
    alloc: Global,
    schema: &Schema,
    permanence: &[bool],
    table: u8,
    column: u8,
    target: u8,
) -> Result<Counterexample, AllocError>
    requires table { table < length schema.now.tables }
    requires target { target ≤ table }
    requires permanence { SaysPermanent (bare_rules schema.now.tables) permanence.now }
    ensures { IfOk result (λ example. example ≡ restrict_example (bare_rules schema.now.tables) table column target) }
{
    let back = path_back(alloc, schema, permanence, target)?;
    let mut base = shared_of(alloc, schema, back.as_slice(), table, column)?;
    let end = base.len() + 1;
    let path = path_rows(alloc, schema, &base, back.as_slice())?;
    let older = base.len() + path.len();
    let row = item_naming(alloc, schema, &base, table, Some(column), older)?;
    push_all(&mut base, path)?;
    let left = after(alloc, older, older + 1, row)?;
    let row = row_numbered(end);
    let right = one_after(alloc, older, older + 2, Op::Delete { row })?;
    split_after(alloc, &base, left, right)
}

/// Puts these rows at the end of a chain.
fn push_all(chain: &mut Chain, rows: Vec<PlannedRow>) -> Result<(), AllocError>
    ensures { OnOk result (chain.new ≡ reverse rows.items ++ chain.old) }
{
    for row in rows {
        chain.push(row)?;
    }
    Ok(())
}

/// A history of two sides that each insert this row after a chain.
fn twice_after(alloc: Global, base: &Chain, row: PlannedRow) -> Result<Counterexample, AllocError>
    requires { length base.now + 2 < 256 }
    ensures { IfOk result (λ example. example ≡ twice_after base.now row) }
{
    let older = base.len();
    let left = after(alloc, older, older + 1, row.copy(alloc)?)?;
    let right = after(alloc, older, older + 2, row)?;
    split_after(alloc, base, left, right)
}

/// A history of two sides that each add one update to a chain.
fn split_after(
    alloc: Global,
    base: &Chain,
    left: Node,
    right: Node,
) -> Result<Counterexample, AllocError>
    requires { length base.now < 256 }
    ensures { IfOk result (λ example. example ≡ split_after base.now left right) }
{
    Ok(Counterexample {
        base: base.nodes(alloc)?,
        left: one_node(alloc, left)?,
        right: one_node(alloc, right)?,
    })
}

/// A list of one node.
fn one_node(alloc: Global, node: Node) -> Result<NodeList, AllocError>
    ensures { IfOk result (λ nodes. nodes ≡ node ∷ []) }
{
    let mut nodes = Vec::new(alloc);
    nodes.push(node)?;
    Ok(NodeList::from_vec(nodes))
}
