ghost use Rattle.std.specs.Prelude.{◌≡◌};
ghost use Rattle.confluence_test.specs.declared.refusal.SchemaRefusal.TheVariants.{Memory};
ghost use Rattle.world_commands.specs.Answers.{from_reading, from_script};
ghost use Rattle.world_commands.specs.declared.refusal.WorldRefusal.TheVariants.{NotTaken};

use bec_bytes::ReadError;
use confluence_test::SchemaRefusal;
use std::alloc::AllocError;
use world_script::{ScriptError, ScriptFault};

/// Why there is no report of a script.
#[derive(Drop)]
pub enum WorldRefusal {
    /// The schema of the script is not taken: for its first fault, or the first invariant that does not survive
    /// merging; or memory ran out.
    NotTaken(SchemaRefusal),
    /// The line with this number, from 1 in the whole script, is the first that says nothing. Line 0 is that of a
    /// script which is too long.
    AtLine(u32),
    /// The source failed.
    Stream,
}

impl From<AllocError> for WorldRefusal {
    ghost from_gives = { λ _ refusal. refusal ≡ NotTaken Memory };

    fn from(_error: AllocError) -> WorldRefusal {
        WorldRefusal::NotTaken(SchemaRefusal::Memory)
    }
}

impl From<ReadError> for WorldRefusal {
    ghost from_gives = { λ error refusal. refusal ≡ from_reading error };

    fn from(error: ReadError) -> WorldRefusal {
        match error {
            ReadError::Failed => WorldRefusal::Stream,
            ReadError::Memory => WorldRefusal::NotTaken(SchemaRefusal::Memory),
        }
    }
}

impl From<SchemaRefusal> for WorldRefusal {
    ghost from_gives = { λ why refusal. refusal ≡ NotTaken why };

    fn from(why: SchemaRefusal) -> WorldRefusal {
        WorldRefusal::NotTaken(why)
    }
}

impl From<ScriptError> for WorldRefusal {
    ghost from_gives = { λ error refusal. refusal ≡ from_script error };

    fn from(error: ScriptError) -> WorldRefusal {
        match error {
            ScriptError::Fault(ScriptFault::AtLine(number)) => WorldRefusal::AtLine(number),
            ScriptError::Fault(ScriptFault::Schema(fault)) => {
                WorldRefusal::NotTaken(SchemaRefusal::Schema(fault))
            }
            ScriptError::Memory => WorldRefusal::NotTaken(SchemaRefusal::Memory),
        }
    }
}
