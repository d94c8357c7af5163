use std::alloc::AllocError;
use thiserror::Error;

/// Why a batch was not added.
#[derive(Clone, Copy, Debug, Error)]
pub enum AddFault {
    /// With all of the batch that can be added, the graph would pass a limit.
    #[error("the graph is full")]
    Full,
    /// Memory ran out.
    #[error("out of memory")]
    Memory,
}

impl From<AllocError> for AddFault {
    ghost use Rattle.std.specs.Prelude.{◌≡◌};
    ghost use Rattle.ready_batch.specs.declared.add_fault.AddFault.TheVariants.{Memory};

    ghost from_gives = { λ _ fault. fault ≡ Memory };

    fn from(_error: AllocError) -> AddFault {
        AddFault::Memory
    }
}
