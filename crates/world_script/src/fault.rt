ghost use Rattle.std.specs.Prelude.{◌≡◌};
ghost use Rattle.world_script.specs.declared.fault.ScriptError.TheVariants.{Memory};

use schema_text::SchemaFault;
use std::alloc::{AllocError, AllocFailed};

/// The first fault of a text that is no script.
#[derive(Clone, Copy)]
pub enum ScriptFault {
    /// The lines before `WORLD` are no schema.
    Schema(SchemaFault),
    /// The line with this number has no form that it may have. A text without a line `WORLD` has this fault one past
    /// its last line, and a text of too many bytes at line 0.
    AtLine(u32),
}

/// Why no script was read.
#[derive(Clone, Copy)]
pub enum ScriptError {
    /// The text is none.
    Fault(ScriptFault),
    /// There was not enough memory.
    Memory,
}

impl From<AllocError> for ScriptError {
    ghost from_gives = { λ _ error. error ≡ Memory };

    fn from(_error: AllocError) -> ScriptError {
        ScriptError::Memory
    }
}

impl<T: Drop> From<AllocFailed<T>> for ScriptError {
    ghost from_gives = { λ _ error. error ≡ Memory };

    fn from(_error: AllocFailed<T>) -> ScriptError {
        ScriptError::Memory
    }
}
