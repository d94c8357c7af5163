use crate::failed::Failed;
use std::alloc::AllocError;
use thiserror::Error;

/// Why a source could not be read as far as was asked.
#[derive(Clone, Copy, Debug, Error)]
pub enum ReadError {
    /// A call of the source failed.
    #[error("the stream failed")]
    Failed,
    /// Memory ran out.
    #[error("out of memory")]
    Memory,
}

impl From<Failed> for ReadError {
    ghost use Rattle.bec_bytes.specs.declared.read_error.ReadError.TheVariants.{Failed as StreamFailed};
    ghost use Rattle.std.specs.Prelude.{◌≡◌};

    ghost from_gives = { λ _ e. e ≡ StreamFailed };

    fn from(_failed: Failed) -> ReadError {
        ReadError::Failed
    }
}

impl From<AllocError> for ReadError {
    ghost use Rattle.bec_bytes.specs.declared.read_error.ReadError.TheVariants.{Memory};
    ghost use Rattle.std.specs.Prelude.{◌≡◌};

    ghost from_gives = { λ _ e. e ≡ Memory };

    fn from(_error: AllocError) -> ReadError {
        ReadError::Memory
    }
}
