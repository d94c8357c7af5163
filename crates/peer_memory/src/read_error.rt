use std::alloc::{AllocError, AllocFailed};

/// Why bytes gave no peers.
#[derive(Clone, Copy, Drop)]
pub(crate) enum PeersError {
    /// There was not enough memory.
    Memory,
    /// They are of another form.
    NoForm,
}

impl From<AllocError> for PeersError {
    ghost use Rattle.std.specs.Prelude.{◌≡◌};
    ghost use Rattle.peer_memory.specs.declared.read_error.PeersError.TheVariants.{Memory};

    ghost from_gives = { λ _ error. error ≡ Memory };

    fn from(_error: AllocError) -> PeersError {
        PeersError::Memory
    }
}

impl<T: Drop> From<AllocFailed<T>> for PeersError {
    ghost use Rattle.std.specs.Prelude.{◌≡◌};
    ghost use Rattle.peer_memory.specs.declared.read_error.PeersError.TheVariants.{Memory};

    ghost from_gives = { λ _ error. error ≡ Memory };

    fn from(_error: AllocFailed<T>) -> PeersError {
        PeersError::Memory
    }
}
