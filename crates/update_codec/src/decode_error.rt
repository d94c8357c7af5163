ghost use Rattle.std.specs.Prelude.{◌≡◌};
ghost use Rattle.update_codec.specs.declared.decode_error.DecodeError.TheVariants.{Memory};

use crate::CodecFault;
use std::alloc::{AllocError, AllocFailed};
use thiserror::Error;

/// Why bytes were not decoded.
#[derive(Clone, Copy, Debug, Error)]
pub enum DecodeError {
    /// The bytes spell no update.
    #[error("{0}")]
    Fault(CodecFault),
    /// There was not enough memory.
    #[error("out of memory")]
    Memory,
}

impl From<AllocError> for DecodeError {
    ghost from_gives = { λ _ error. error ≡ Memory };

    fn from(_error: AllocError) -> DecodeError {
        DecodeError::Memory
    }
}

impl<T: Drop> From<AllocFailed<T>> for DecodeError {
    ghost from_gives = { λ _ error. error ≡ Memory };

    fn from(_error: AllocFailed<T>) -> DecodeError {
        DecodeError::Memory
    }
}
