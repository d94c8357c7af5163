ghost use Rattle.std.specs.Prelude.{◌≡◌};
ghost use Rattle.confluence_test.specs.declared.refusal.SchemaRefusal.TheVariants.{Memory};
ghost use Rattle.confluence_test.specs.Refusing.{from_reading};

use schema::Schema;
use schema_text::{SchemaError, SchemaFault};
use std::alloc::AllocError;
use table_model::{Counterexample, Invariant};

/// Why the text of a schema is not taken.
#[derive(Drop)]
pub enum SchemaRefusal {
    /// The text has this fault first.
    Schema(SchemaFault),
    /// An invariant does not survive merging, and is the first of the schema that does not.
    NotConfluent {
        /// The schema.
        schema: Schema,
        /// The invariant.
        which: Invariant,
        /// A history that breaks it.
        example: Counterexample,
    },
    /// Memory ran out.
    Memory,
}

impl From<AllocError> for SchemaRefusal {
    ghost from_gives = { λ _ refusal. refusal ≡ Memory };

    fn from(_error: AllocError) -> SchemaRefusal {
        SchemaRefusal::Memory
    }
}

impl From<SchemaError> for SchemaRefusal {
    ghost from_gives = { λ error refusal. refusal ≡ from_reading error };

    fn from(error: SchemaError) -> SchemaRefusal {
        match error {
            SchemaError::Fault(fault) => SchemaRefusal::Schema(fault),
            SchemaError::Memory => SchemaRefusal::Memory,
        }
    }
}
