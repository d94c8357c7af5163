//! The command `confirm`.

ghost use Rattle.outcomes.specs.Outcome.{ComesTo};
ghost use Rattle.audit_commands.specs.Confirming.{ConfirmAnswer};

use audit_text::{MAX_CERTIFICATE_BYTES, certificates_are_short, certified, doubled_line};
use bec_bytes::Source;
use outcomes::Refusal;
use schema_verdict::read_text;
use std::alloc::Global;

/// The line for the key and the index of two updates that are doubled, where the input is their two records and nothing
/// else.
///
/// Every other input comes to [`Refusal::NotDoubled`]: fewer or more records, one that is cut or misspelled or not
/// signed by its author, two of one message. Of an input that is longer than two records may be, no more is read than
/// tells that.
pub fn confirm<S: Source>(alloc: Global, input: &mut S) -> Result<Vec<u8>, Refusal>
    ensures { ComesTo ConfirmAnswer (S.left input.old) (S.left input.new) (S.faults input.old) (S.faults input.new)
        result }
{
    certificates_are_short();
    let text = read_text(alloc, input, MAX_CERTIFICATE_BYTES)?;
    match certified(alloc, &text)? {
        Some((key, index)) => Ok(doubled_line(alloc, &key, index)?.into_bytes()),
        None => Err(Refusal::NotDoubled),
    }
}
