ghost use Rattle.std.specs.Prelude.{◌⊎◌, IfErr, IfOk, Ok, Err};
ghost use Rattle.schema_verdict.specs.declared.refusal.VerdictRefusal.TheVariants.{NotTaken};
ghost use Rattle.schema_verdict.specs.Verdict.{CheckAnswer, IsFault};

use crate::refusal::VerdictRefusal;
use crate::text_input::read_text;
use bec_bytes::Source;
use confluence_test::take_schema;
use row_check::{Luhn, Native};
use schema_text::MAX_SCHEMA_BYTES;
use std::alloc::Global;

/// Reads the text of a schema, and answers `confluent` where each invariant that it declares survives merging.
///
/// It is refused for its first fault, or for the first invariant that does not survive, with a history that breaks it.
pub fn verdict<S: Source>(alloc: Global, input: &mut S) -> Result<Vec<u8>, VerdictRefusal>
    ensures confluent { IfOk result (λ text. CheckAnswer NotTaken (S.left input.old) (S.left input.new) (Ok text)) }
    ensures refused { IfErr result (λ refusal. CheckAnswer NotTaken (S.left input.old) (S.left input.new) (Err refusal)
        ⊎ IsFault (S.faults input.old) (S.faults input.new) refusal) }
{
    let native: Native<Luhn, Luhn> = Native::new(Luhn);
    let text = read_text(alloc, input, MAX_SCHEMA_BYTES)?;
    let _schema = take_schema(alloc, &text, &native)?;
    let verdict = Vec::from_slice(alloc, b"confluent\n")?;
    Ok(verdict)
}
