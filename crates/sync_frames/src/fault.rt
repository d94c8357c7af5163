use std::alloc::AllocError;
use thiserror::Error;

/// What stands in a stream where a frame should begin is none.
#[derive(Clone, Copy, Debug, PartialEq, Eq, Error)]
#[error("no frame at {place}")]
pub struct FrameFault {
    /// Where it begins, in bytes from the first of the stream.
    pub place: u64,
}

/// Why a piece gave no frames.
#[derive(Clone, Copy, Debug, PartialEq, Eq, Error)]
pub enum FeedError {
    /// What comes next in the stream is no frame.
    #[error("{0}")]
    Fault(FrameFault),
    /// There was not enough memory.
    #[error("out of memory")]
    Memory,
}

impl From<AllocError> for FeedError {
    ghost use Rattle.std.specs.Prelude.{◌≡◌};
    ghost use Rattle.sync_frames.specs.declared.fault.FeedError.TheVariants.{Memory};

    ghost from_gives = { λ _ error. error ≡ Memory };

    fn from(_error: AllocError) -> FeedError {
        FeedError::Memory
    }
}
