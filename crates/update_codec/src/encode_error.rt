ghost use Rattle.std.specs.Prelude.{◌≡◌};
ghost use Rattle.update_codec.specs.declared.encode_error.EncodeError.TheVariants.{Memory};

use std::alloc::AllocError;
use thiserror::Error;

/// A spelling that would be longer than an update's may be.
#[derive(Clone, Copy, Debug, Error)]
#[error("an update of {len} bytes is too long")]
pub struct TooLong {
    /// How many bytes the spelling would have, signature included.
    pub len: u64,
}

/// Why an update was not encoded.
#[derive(Clone, Copy, Debug, Error)]
pub enum EncodeError {
    /// Its spelling would have more than 262,144 bytes.
    #[error("{0}")]
    TooLong(TooLong),
    /// There was not enough memory.
    #[error("out of memory")]
    Memory,
}

impl From<AllocError> for EncodeError {
    ghost from_gives = { λ _ error. error ≡ Memory };

    fn from(_error: AllocError) -> EncodeError {
        EncodeError::Memory
    }
}
