ghost use Rattle.std.specs.Prelude.{◌≡◌, length};
ghost use Rattle.query.specs.declared.stop.Stop.TheVariants.{Memory};

use crate::QueryKind;
use std::alloc::{AllocError, AllocFailed};

/// A place in a text.
#[derive(Clone, Copy)]
pub(crate) struct Spot {
    /// The line, from 1.
    pub line: u32,
    /// The byte of the line, from 1.
    pub column: u32,
}

/// What is wrong in a text, and the number of the word that is, from 0. At the end of the text it is the number of
/// words.
#[derive(Clone, Copy)]
pub(crate) struct Wrong {
    pub kind: QueryKind,
    pub at: usize,
}

/// Why the words of a text were not read on.
#[derive(Clone, Copy)]
pub(crate) enum Stop {
    /// Something is wrong in the text.
    Fault(Wrong),
    /// There was not enough memory.
    Memory,
}

impl From<AllocError> for Stop {
    ghost from_gives = { λ _ stop. stop ≡ Memory };

    fn from(_error: AllocError) -> Stop {
        Stop::Memory
    }
}

impl<T: Drop> From<AllocFailed<T>> for Stop {
    ghost from_gives = { λ _ stop. stop ≡ Memory };

    fn from(_error: AllocFailed<T>) -> Stop {
        Stop::Memory
    }
}
