ghost use Rattle.std.specs.Prelude.{◌⊎◌, ◌≤◌, IfOk, IfErr};
ghost use Rattle.node_commands.specs.Bundle.{HoldsText, LacksText};
ghost use Rattle.outcomes.specs.Outcome.{IsFault};

use bec_bytes::{Framed, Source, read_framed};
use outcomes::Refusal;
use schema_text::{MAX_SCHEMA_BYTES, SchemaFault, SchemaKind};
use std::alloc::Global;

/// Reads the text of the schema that a bundle begins with, and nothing behind it.
pub fn bundle_schema<S: Source>(alloc: Global, input: &mut S) -> Result<Vec<u8>, Refusal>
    ensures text { IfOk result (λ text. HoldsText (S.left input.old) (S.left input.new) text.items) }
    ensures refused { IfErr result (λ refusal. LacksText (S.left input.old) (S.left input.new) refusal
        ⊎ IsFault (S.faults input.old) (S.faults input.new) refusal) }
    ensures later { S.faults input.old ≤ S.faults input.new }
{
    match read_framed(alloc, input, MAX_SCHEMA_BYTES)? {
        Framed::End | Framed::Cut(_) => Err(Refusal::CutSchema),
        Framed::TooLong => Err(Refusal::Schema(SchemaFault {
            kind: SchemaKind::Limit,
            line: 0,
        })),
        Framed::Whole(text) => Ok(text),
    }
}
