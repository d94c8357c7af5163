//! What is put into a directory.

ghost use Rattle.std.specs.Prelude.{◌≡◌, ◌≤◌, ◌⊎◌, IfErr, IfOk, map};
ghost use Rattle.bundles.specs.Bundles.{BundleHeld, BundleRefused};
ghost use Rattle.confluence_test.specs.Taking.{TakesSchema};
ghost use Rattle.outcomes.specs.Outcome.{IsFault};
ghost use Rattle.row_check.specs.Checksum.{is_luhn};
ghost use Rattle.schema.specs.Data.{SchemaData};
ghost use Rattle.update_codec.specs.Parts.{entry_of};
ghost use Rattle.update_model.specs.Graph.{IsClosed};
ghost use Rattle.import_commands.specs.Making.{IsTextOf};

use bec_bytes::Source;
use bundles::read_bundle;
use hash_graph::Graph;
use outcomes::Refusal;
use row_check::{Luhn, Native};
use schema::Schema;
use std::alloc::{AllocError, Global};
use update_check::Checked;

/// Updates, and the text of the schema that they are under.
#[derive(Drop)]
pub(crate) struct Contents {
    /// The id of their database.
    pub database: [u8; 32],
    /// The text of the schema.
    pub text: Vec<u8>,
    /// The updates.
    pub updates: Vec<Checked>,
}

/// The text of a schema and updates, on memory of their own.
pub(crate) fn contents_of(
    alloc: Global,
    schema: &Schema,
    graph: &Graph<Checked>,
) -> Result<Contents, AllocError>
    requires { TakesSchema is_luhn schema.now.text schema.now }
    ensures text { IfOk result (λ contents. IsTextOf schema.now contents.database contents.text.items) }
    ensures updates { IfOk result (λ contents. contents.updates.items ≡ graph.now) }
    ensures closed { IfOk result (λ contents. IsClosed (map entry_of contents.updates.items)) }
{
    graph.len(); // what holds of every graph
    let text = Vec::from_slice(alloc, schema.text())?;
    let updates = copies_of(alloc, graph.tail(0))?;
    Ok(Contents {
        database: schema.rule().database,
        text,
        updates,
    })
}

/// Equal updates on memory of their own.
fn copies_of(alloc: Global, updates: &[Checked]) -> Result<Vec<Checked>, AllocError>
    ensures { IfOk result (λ copies. copies.items ≡ updates.now) }
{
    let mut copies = Vec::with_capacity(alloc, updates.len())?;
    for update in updates {
        copies.push(update.copy(alloc)?)?;
    }
    Ok(copies)
}

/// What the bundle holds that is read.
pub(crate) fn bundle_contents<S: Source>(alloc: Global, input: &mut S) -> Result<Contents, Refusal>
    ensures held { IfOk result (λ contents. (schema : SchemaData) × BundleHeld (S.left input.old) (S.left input.new)
        schema contents.updates.items × IsTextOf schema contents.database contents.text.items) }
    ensures closed { IfOk result (λ contents. IsClosed (map entry_of contents.updates.items)) }
    ensures refused { IfErr result (λ refusal. BundleRefused (S.left input.old) (S.left input.new) refusal
        ⊎ IsFault (S.faults input.old) (S.faults input.new) refusal) }
    ensures later { S.faults input.old ≤ S.faults input.new }
{
    let native = Native::new(Luhn);
    let bundle = read_bundle(alloc, &native, input)?;
    let contents = contents_of(alloc, &bundle.schema, &bundle.graph)?;
    Ok(contents)
}
