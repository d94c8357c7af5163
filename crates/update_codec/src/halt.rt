//! Why a reader stopped, told by what is left: readers see the rest of the bytes alone, and know no place.

ghost use Rattle.std.specs.Prelude.{◌≡◌, length};
ghost use Rattle.update_codec.specs.declared.codec_fault.CodecKind.TheVariants as kinds;
ghost use Rattle.update_codec.specs.declared.halt.UpdateReadError.TheVariants.{Halted, Memory};

use crate::CodecKind;
use std::alloc::{AllocError, AllocFailed};

/// A fault, and how many bytes there are from its place to the end.
#[derive(Clone, Copy, Drop)]
pub(crate) struct Halt {
    pub(crate) kind: CodecKind,
    pub(crate) left: usize,
}

/// Why a reader stopped.
#[derive(Clone, Copy, Drop)]
pub(crate) enum UpdateReadError {
    Halted(Halt),
    Memory,
}

impl From<AllocError> for UpdateReadError {
    ghost from_gives = { λ _ error. error ≡ Memory };

    fn from(_error: AllocError) -> UpdateReadError {
        UpdateReadError::Memory
    }
}

impl<T: Drop> From<AllocFailed<T>> for UpdateReadError {
    ghost from_gives = { λ _ error. error ≡ Memory };

    fn from(_error: AllocFailed<T>) -> UpdateReadError {
        UpdateReadError::Memory
    }
}

/// The bytes end in a field, or before one.
pub(crate) const SHORT: UpdateReadError = UpdateReadError::Halted(Halt {
    kind: CodecKind::Short,
    left: 0,
});

/// A fault at the first of the bytes that are still to come.
pub(crate) fn fault_at(kind: CodecKind, here: &[u8]) -> UpdateReadError
    ensures { result ≡ Halted (record { kind = kind; left = length here.now }) }
{
    UpdateReadError::Halted(Halt {
        kind,
        left: here.len(),
    })
}
