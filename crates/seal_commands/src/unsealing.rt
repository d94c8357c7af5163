//! `unseal`.

ghost use Rattle.std.specs.Prelude.{◌⊎◌, Ok, Err, IfOk, IfErr};
ghost use Rattle.seal_commands.specs.Inputs.{IsInputFault};
ghost use Rattle.seal_commands.specs.Unsealing.{UnsealAnswer, as_it_is};

use crate::reading::read_input;
use crate::refusal::SealRefusal;
use bec_bytes::Source;
use hss_chain::verify_hss;
use std::alloc::Global;

/// Reads the input, and answers `good` where `sig` is a seal of it by the two-level public key `key`. Else it is
/// refused as [`SealRefusal::BadSeal`], or as [`SealRefusal::InputTooLong`] exactly where the input has more than
/// [`INPUT_LIMIT`](crate::INPUT_LIMIT) bytes.
pub fn unseal<S: Source>(
    alloc: Global,
    key: &[u8],
    sig: &[u8],
    input: &mut S,
) -> Result<Vec<u8>, SealRefusal>
    ensures done { IfOk result (λ text. UnsealAnswer as_it_is key.now sig.now (S.left input.old) (S.left input.new)
        (Ok text)) }
    ensures refused { IfErr result (λ why. UnsealAnswer as_it_is key.now sig.now (S.left input.old) (S.left input.new)
        (Err why)
        ⊎ IsInputFault (S.faults input.old) (S.faults input.new) why) }
{
    let msg = read_input(alloc, input)?;
    if !verify_hss(key, &msg, sig) {
        return Err(SealRefusal::BadSeal);
    }
    let good = Vec::from_slice(alloc, b"good\n")?;
    Ok(good)
}
