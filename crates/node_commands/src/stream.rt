ghost use Rattle.std.specs.Prelude.{◌≤◌, IfOk, IfErr};
ghost use Rattle.update_stream.specs.declared.reading.Reading.TheVariants.{Whole};
ghost use Rattle.update_stream.specs.Told.{Reads};
ghost use Rattle.node_commands.specs.Heads.{StopsAt};

use bec_bytes::Source;
use hash_graph::Graph;
use outcomes::Refusal;
use std::alloc::Global;
use update_check::Checked;
use update_model::DbRule;
use update_stream::{Reading, read_stream};

/// Reads a stream up to its end, and answers its graph, or refuses the first record that cannot be taken.
pub fn read_graph<S: Source>(
    alloc: Global,
    rule: &Option<DbRule>,
    input: &mut S,
) -> Result<Graph<Checked>, Refusal>
    ensures whole { IfOk result (λ members. Reads rule.now (S.left input.old) (S.left input.new) (Whole members)) }
    ensures refused { IfErr result (λ refusal. StopsAt rule.now (S.left input.old) (S.left input.new)
        (S.faults input.old) (S.faults input.new) refusal) }
    ensures later { S.faults input.old ≤ S.faults input.new }
{
    match read_stream(alloc, rule, input)? {
        Reading::Whole(graph) => Ok(graph),
        Reading::Refused { number, fault } => Err(Refusal::Record { number, fault }),
    }
}
