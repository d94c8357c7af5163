ghost use Rattle.std.specs.Prelude.{◌≡◌};
ghost use Rattle.confluence_test.specs.declared.refusal.SchemaRefusal.TheVariants.{Memory};
ghost use Rattle.schema_verdict.specs.declared.refusal.VerdictRefusal.TheVariants.{NotTaken};
ghost use Rattle.schema_verdict.specs.Verdict.{from_reading};

use bec_bytes::ReadError;
use confluence_test::SchemaRefusal;
use std::alloc::AllocError;

/// Why a schema gets no `confluent`.
#[derive(Drop)]
pub enum VerdictRefusal {
    /// Its text is not taken: for its first fault, or the first invariant that does not survive merging; or memory ran
    /// out.
    NotTaken(SchemaRefusal),
    /// The source failed.
    Stream,
}

impl From<AllocError> for VerdictRefusal {
    ghost from_gives = { λ _ refusal. refusal ≡ NotTaken Memory };

    fn from(_error: AllocError) -> VerdictRefusal {
        VerdictRefusal::NotTaken(SchemaRefusal::Memory)
    }
}

impl From<ReadError> for VerdictRefusal {
    ghost from_gives = { λ error refusal. refusal ≡ from_reading error };

    fn from(error: ReadError) -> VerdictRefusal {
        match error {
            ReadError::Failed => VerdictRefusal::Stream,
            ReadError::Memory => VerdictRefusal::NotTaken(SchemaRefusal::Memory),
        }
    }
}

impl From<SchemaRefusal> for VerdictRefusal {
    ghost from_gives = { λ why refusal. refusal ≡ NotTaken why };

    fn from(why: SchemaRefusal) -> VerdictRefusal {
        VerdictRefusal::NotTaken(why)
    }
}
