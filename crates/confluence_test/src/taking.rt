//! Taking the text of a schema.

ghost use Rattle.std.specs.Prelude.{◌≡◌, ◌⊎◌, IfOk, IfErr};
ghost use Rattle.confluence_test.specs.declared.refusal.SchemaRefusal.TheVariants.{Memory};
ghost use Rattle.confluence_test.specs.Taking.{RefusesSchema, TakesSchema};

use crate::{SchemaRefusal, Tested, declared_refusal_is_confirmed, test};
use confluence_laws::accepted_is_confluent;
use row_check::{Checks, Native, Relation};
use schema::Schema;
use schema_text::{declared_is_sound, read_schema};
use std::alloc::Global;

/// Reads the text of a schema and tests its invariants, or refuses the text.
///
/// [`SchemaRefusal::Schema`] comes with the first fault of the text, [`SchemaRefusal::NotConfluent`] with the first
/// invariant that does not survive merging, and [`SchemaRefusal::Memory`] where memory runs out.
pub fn take_schema<L: Relation, C: Checks<L>>(
    alloc: Global,
    text: &[u8],
    native: &Native<L, C>,
) -> Result<Schema, SchemaRefusal>
    ensures taken { IfOk result (λ schema. TakesSchema L.answer text.now schema) }
    ensures refused { IfErr result (λ refusal. RefusesSchema L.answer text.now refusal ⊎ (refusal ≡ Memory)) }
{
    accepted_is_confluent();
    declared_is_sound();
    declared_refusal_is_confirmed();
    let schema = read_schema(alloc, text, native)?;
    match test(alloc, &schema)? {
        Tested::Accepted => Ok(schema),
        Tested::Refused { which, example } => Err(SchemaRefusal::NotConfluent {
            schema,
            which,
            example,
        }),
    }
}
