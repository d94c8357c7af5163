//! The input that is sealed.

ghost use Rattle.std.specs.Prelude.{◌≡◌, ◌≤◌, ◌⊎◌, IfOk, IfErr, length};
ghost use Rattle.schema_verdict.specs.Inputs.{IsWholeText};
ghost use Rattle.seal_commands.specs.Inputs.{IsInputFault, IsLongText};

use crate::refusal::SealRefusal;
use bec_bytes::Source;
use schema_verdict::read_text;
use std::alloc::Global;

/// How many bytes may be sealed: 16 MiB.
pub const INPUT_LIMIT: usize = 16_777_216;

/// Reads the input whole. Of one that is too long, one byte more than the limit is read.
pub(crate) fn read_input<S: Source>(alloc: Global, input: &mut S) -> Result<Vec<u8>, SealRefusal>
    ensures whole { IfOk result (λ text. IsWholeText INPUT_LIMIT (S.left input.old) (S.left input.new) text.items
        × (length text.items ≤ INPUT_LIMIT)) }
    ensures refused { IfErr result (λ why. ((why ≡ SealRefusal.InputTooLong)
        × IsLongText INPUT_LIMIT (S.left input.old) (S.left input.new))
        ⊎ IsInputFault (S.faults input.old) (S.faults input.new) why) }
{
    let text = read_text(alloc, input, INPUT_LIMIT)?;
    if INPUT_LIMIT < text.len() {
        return Err(SealRefusal::InputTooLong);
    }
    Ok(text)
}
