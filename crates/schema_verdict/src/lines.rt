//! The lines for why a schema is refused.

ghost use Rattle.std.specs.Prelude.{◌≡◌, ◌≢◌, IfOk};
ghost use Rattle.std.specs.String.{string_bytes};
ghost use Rattle.confluence_test.specs.declared.refusal.SchemaRefusal.TheVariants.{Memory};
ghost use Rattle.schema_verdict.specs.Texts.{refused_text, schema_text};
ghost use Rattle.schema_verdict.specs.Verdict.{text_for};

use confluence_test::SchemaRefusal;
use schema::Schema;
use schema_text::SchemaFault;
use std::alloc::{AllocError, Global};
use table_model::{Counterexample, Invariant};
use table_text::push_counterexample;

/// The line for the first fault of a schema's text.
pub fn schema_line(alloc: Global, fault: &SchemaFault) -> Result<String, AllocError>
    ensures { IfOk result (λ line. string_bytes line ≡ schema_text fault.now) }
{
    format!(in alloc; "! schema {fault}\n")
}

/// The lines for an invariant that does not survive merging: where it stands, and the counterexample.
pub fn refused_lines(
    alloc: Global,
    schema: &Schema,
    which: &Invariant,
    example: &Counterexample,
) -> Result<Vec<u8>, AllocError>
    ensures { IfOk result (λ lines. lines.items ≡ refused_text schema.now.tables which.now example.now) }
{
    let line = which.line;
    let mut lines = format!(in alloc; "! not confluent line {line}\n")?.into_bytes();
    push_counterexample(&mut lines, schema, example)?;
    Ok(lines)
}

/// The lines for why the text of a schema is not taken. Want of memory has none.
pub(crate) fn refusal_lines(alloc: Global, why: &SchemaRefusal) -> Result<Vec<u8>, AllocError>
    ensures { IfOk result (λ lines. (lines.items ≡ text_for why.now) × (why.now ≢ Memory)) }
{
    match why {
        SchemaRefusal::Schema(fault) => Ok(schema_line(alloc, fault)?.into_bytes()),
        SchemaRefusal::NotConfluent {
            schema,
            which,
            example,
        } => refused_lines(alloc, schema, which, example),
        SchemaRefusal::Memory => Err(AllocError),
    }
}
