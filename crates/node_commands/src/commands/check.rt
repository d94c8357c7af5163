ghost use Rattle.outcomes.specs.Outcome.{ComesTo};
ghost use Rattle.key_directory.specs.Parts.{IsHome};
ghost use Rattle.node_commands.specs.Verdict.{CheckAnswer};

use bec_bytes::Source;
use outcomes::Refusal;
use std::alloc::Global;

/// What is said of a schema whose invariants all survive merging.
pub fn verdict<S: Source>(alloc: Global, input: &mut S) -> Result<Vec<u8>, Refusal>
    ensures { ComesTo CheckAnswer (S.left input.old) (S.left input.new) (S.faults input.old) (S.faults input.new) result }
{
    let said = schema_verdict::verdict(alloc, input)?;
    Ok(said)
}
