ghost use Rattle.std.specs.Prelude.{◌≡◌, ◌≤◌, ◌<◌, ◌+◌, ◌^◌, IfOk, IfErr};
ghost use Rattle.bec_bytes.specs.Causes.{Rose};
ghost use Rattle.bec_bytes.specs.declared.read_error.ReadError.TheVariants.{Failed as StreamFailed};
ghost use Rattle.schema_verdict.specs.Inputs.{ReadsText};

use bec_bytes::{ReadError, Source, read_full};
use std::alloc::Global;

/// Reads a text that may have so many bytes, and one byte more where it is too long.
pub fn read_text<S: Source>(
    alloc: Global,
    input: &mut S,
    limit: usize,
) -> Result<Vec<u8>, ReadError>
    requires { limit < 2 ^ 32 }
    ensures text { IfOk result (λ text. ReadsText limit (S.left input.old) (S.left input.new) text.items) }
    ensures failed { IfErr result (λ e. e ≡ StreamFailed → Rose (S.faults input.old) (S.faults input.new)) }
    ensures later { S.faults input.old ≤ S.faults input.new }
{
    let mut text = vec![in alloc; 0u8; limit + 1]?;
    let count = read_full(input, &mut text)?;
    text.truncate(count);
    Ok(text)
}
