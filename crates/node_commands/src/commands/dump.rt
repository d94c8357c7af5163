ghost use Rattle.node_commands.specs.Bundle.{DumpAnswer};
ghost use Rattle.outcomes.specs.Outcome.{ComesTo};

use crate::bundle::bundle_schema;
use crate::graph_tables::printed_tables;
use crate::stream::read_graph;
use bec_bytes::Source;
use confluence_test::take_schema;
use outcomes::Refusal;
use row_check::{Luhn, Native};
use std::alloc::Global;

/// The tables of a bundle, as they are printed.
pub fn bundle_tables<S: Source>(
    alloc: Global,
    input: &mut S,
    json: bool,
) -> Result<Vec<u8>, Refusal>
    ensures { ComesTo (DumpAnswer json) (S.left input.old) (S.left input.new) (S.faults input.old) (S.faults input.new)
        result }
{
    let native: Native<Luhn, Luhn> = Native::new(Luhn);
    let declared = bundle_schema(alloc, input)?;
    let schema = take_schema(alloc, &declared, &native)?;
    let rule = Some(schema.rule().copy(alloc)?);
    let graph = read_graph(alloc, &rule, input)?;
    let text = printed_tables(alloc, &schema, &native, &graph, json)?;
    Ok(text)
}
