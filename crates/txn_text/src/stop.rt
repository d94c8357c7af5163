ghost use Rattle.std.specs.Prelude.{◌≡◌, length};
ghost use Rattle.txn_text.specs.declared.stop.Stop.TheVariants.{Memory};

use crate::TextKind;
use std::alloc::{AllocError, AllocFailed};

/// What is wrong in a line, and how many bytes of the line stand from there on.
#[derive(Clone, Copy)]
pub(crate) struct Wrong {
    pub kind: TextKind,
    pub left: usize,
}

/// Why the words of a line were not read on.
#[derive(Clone, Copy)]
pub(crate) enum Stop {
    /// Something is wrong in the line.
    Fault(Wrong),
    /// There was not enough memory.
    Memory,
}

impl From<AllocError> for Stop {
    ghost from_gives = { λ _ stop. stop ≡ Memory };

    fn from(_error: AllocError) -> Stop {
        Stop::Memory
    }
}

impl<T: Drop> From<AllocFailed<T>> for Stop {
    ghost from_gives = { λ _ stop. stop ≡ Memory };

    fn from(_error: AllocFailed<T>) -> Stop {
        Stop::Memory
    }
}
