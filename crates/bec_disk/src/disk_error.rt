ghost use Rattle.std.specs.Prelude.{◌≡◌};
ghost use Rattle.bec_disk.specs.declared.disk_error.DiskError.TheVariants.{DiskFault, Memory};

use crate::disk_fault;
use std::alloc::AllocError;
use thiserror::Error;

/// Why a call that uses a disk and takes memory failed.
#[derive(Clone, Copy, Debug, Error)]
pub enum DiskError {
    /// A call of the disk failed, and the disk has counted the fault.
    #[error("a disk failed")]
    DiskFault,
    /// There was not enough memory.
    #[error("out of memory")]
    Memory,
}

impl From<disk_fault::DiskFault> for DiskError {
    ghost from_gives = { λ _ error. error ≡ DiskFault };

    fn from(_fault: disk_fault::DiskFault) -> DiskError {
        DiskError::DiskFault
    }
}

impl From<AllocError> for DiskError {
    ghost from_gives = { λ _ error. error ≡ Memory };

    fn from(_error: AllocError) -> DiskError {
        DiskError::Memory
    }
}
