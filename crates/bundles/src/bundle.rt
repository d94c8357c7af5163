//! Reading a bundle.

ghost use Rattle.std.specs.Prelude.{◌≤◌, ◌⊎◌, IfErr, IfOk};
ghost use Rattle.bundles.specs.Bundles.{BundleHeld, BundleRefused};
ghost use Rattle.confluence_test.specs.Taking.{TakesSchema};
ghost use Rattle.outcomes.specs.Outcome.{IsFault};
ghost use Rattle.row_check.specs.Checksum.{is_luhn};

use bec_bytes::Source;
use confluence_test::take_schema;
use hash_graph::Graph;
use node_commands::{bundle_schema, read_graph};
use outcomes::Refusal;
use row_check::{Luhn, Native};
use schema::Schema;
use std::alloc::Global;
use update_check::Checked;

/// What a bundle holds.
#[derive(Drop)]
pub struct Bundle {
    /// The schema that it declares.
    pub schema: Schema,
    /// Its updates.
    pub graph: Graph<Checked>,
}

/// Reads the bundle of a source. Its schema is taken, and each of its updates is checked under the rule of that.
pub fn read_bundle<S: Source>(
    alloc: Global,
    native: &Native<Luhn, Luhn>,
    input: &mut S,
) -> Result<Bundle, Refusal>
    ensures held { IfOk result (λ bundle. BundleHeld (S.left input.old) (S.left input.new) bundle.schema bundle.graph) }
    ensures taken { IfOk result (λ bundle. TakesSchema is_luhn bundle.schema.text bundle.schema) }
    ensures refused { IfErr result (λ refusal. BundleRefused (S.left input.old) (S.left input.new) refusal
        ⊎ IsFault (S.faults input.old) (S.faults input.new) refusal) }
    ensures later { S.faults input.old ≤ S.faults input.new }
{
    let declared = bundle_schema(alloc, input)?;
    let schema = take_schema(alloc, &declared, native)?;
    let rule = Some(schema.rule().copy(alloc)?);
    let graph = read_graph(alloc, &rule, input)?;
    Ok(Bundle { schema, graph })
}
