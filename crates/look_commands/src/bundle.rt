//! Reading a bundle.

ghost use Rattle.std.specs.Prelude.{◌≡◌, ◌≤◌, ◌⊎◌, IfErr, IfOk, IsTrue};
ghost use Rattle.confluence_laws.specs.Confluence.{are_accepted};
ghost use Rattle.outcomes.specs.Outcome.{IsFault};
ghost use Rattle.outcomes.specs.Rules.{nodes_of, rules_of};
ghost use Rattle.table_model.specs.Invariants.{invariants_of};
ghost use Rattle.tuple_state.specs.State.{IsStateOf};
ghost use Rattle.look_commands.specs.Bundles.{BundleHeld, BundleRefused};

use crate::members::Members;
use bec_bytes::Source;
use confluence_test::{accepted_is_unlimited, take_schema};
use hash_graph::Graph;
use history::replay;
use node_commands::{bundle_schema, read_graph};
use outcomes::Refusal;
use row_check::{Luhn, Native};
use schema::Schema;
use std::alloc::{AllocError, Global};
use tuple_state::Tables;
use update_check::Checked;

/// What a bundle holds, judged.
#[derive(Drop)]
pub(crate) struct Bundle {
    /// The schema that it declares.
    pub schema: Schema,
    /// Its updates.
    pub graph: Graph<Checked>,
    /// Their tables.
    pub tables: Tables,
}

impl Bundle {
    /// Its updates, with its schema and their tables.
    pub(crate) fn members<'a>(&'a self, native: &'a Native<Luhn, Luhn>) -> Members<'a>
        ensures schema { result.schema.now ≡ self.now.schema }
        ensures graph { result.graph.now ≡ self.now.graph }
        ensures tables { result.tables.now ≡ self.now.tables }
    {
        Members {
            schema: &self.schema,
            native,
            graph: &self.graph,
            tables: &self.tables,
        }
    }
}

/// Reads the bundle of a source, and judges its updates.
pub(crate) fn read_bundle<S: Source>(
    alloc: Global,
    native: &Native<Luhn, Luhn>,
    input: &mut S,
) -> Result<Bundle, Refusal>
    ensures held { IfOk result (λ bundle. BundleHeld (S.left input.old) (S.left input.new) bundle.schema bundle.graph) }
    ensures state { IfOk result (λ bundle. IsStateOf (rules_of bundle.schema) (nodes_of bundle.graph) bundle.tables) }
    ensures refused { IfErr result (λ refusal. BundleRefused (S.left input.old) (S.left input.new) refusal
        ⊎ IsFault (S.faults input.old) (S.faults input.new) refusal) }
    ensures later { S.faults input.old ≤ S.faults input.new }
{
    let declared = bundle_schema(alloc, input)?;
    let schema = take_schema(alloc, &declared, native)?;
    let rule = Some(schema.rule().copy(alloc)?);
    let graph = read_graph(alloc, &rule, input)?;
    Ok(judged(alloc, native, schema, graph)?)
}

/// Judges the updates of a bundle.
fn judged(
    alloc: Global,
    native: &Native<Luhn, Luhn>,
    schema: Schema,
    graph: Graph<Checked>,
) -> Result<Bundle, AllocError>
    requires { IsTrue (are_accepted (rules_of schema) (invariants_of (rules_of schema))) }
    ensures schema { IfOk result (λ bundle. bundle.schema ≡ schema) }
    ensures graph { IfOk result (λ bundle. bundle.graph ≡ graph) }
    ensures state { IfOk result (λ bundle. IsStateOf (rules_of schema) (nodes_of graph) bundle.tables) }
{
    accepted_is_unlimited();
    match replay(alloc, &schema, native, &graph) {
        Ok(tables) => Ok(Bundle {
            schema,
            graph,
            tables,
        }),
        Err(error) => Err(error),
    }
}
