use bec_disk::DiskError;
use replica::OpenKind;
use thiserror::Error;

/// Why the store of a directory is not opened.
#[derive(Clone, Copy, Debug, Error)]
pub enum StoreRefusal {
    /// There is no part Schema, or it is absent.
    #[error("there is no store")]
    NoStore,
    /// The part Schema is not absent, and there is no part Updates, or it declares no store.
    #[error("the store is damaged")]
    BadStore,
    /// The shelf or one of its disks failed.
    #[error("a disk failed")]
    DiskFault,
    /// Memory ran out.
    #[error("out of memory")]
    Memory,
}

impl From<DiskError> for StoreRefusal {
    ghost use Rattle.std.specs.Prelude.{◌≡◌};
    ghost use Rattle.store_directory.specs.Refusals.{from_disk};

    ghost from_gives = { λ error refusal. refusal ≡ from_disk error };

    fn from(error: DiskError) -> StoreRefusal {
        match error {
            DiskError::DiskFault => StoreRefusal::DiskFault,
            DiskError::Memory => StoreRefusal::Memory,
        }
    }
}

impl From<bec_disk::DiskFault> for StoreRefusal {
    ghost use Rattle.std.specs.Prelude.{◌≡◌};
    ghost use Rattle.store_directory.specs.declared.store_refusal.StoreRefusal.TheVariants.{DiskFault};

    ghost from_gives = { λ _ refusal. refusal ≡ DiskFault };

    fn from(_fault: bec_disk::DiskFault) -> StoreRefusal {
        StoreRefusal::DiskFault
    }
}

impl From<OpenKind> for StoreRefusal {
    ghost use Rattle.std.specs.Prelude.{◌≡◌};
    ghost use Rattle.store_directory.specs.Refusals.{from_opening};

    ghost from_gives = { λ kind refusal. refusal ≡ from_opening kind };

    fn from(kind: OpenKind) -> StoreRefusal {
        match kind {
            OpenKind::DiskFault => StoreRefusal::DiskFault,
            OpenKind::NoStore => StoreRefusal::NoStore,
            OpenKind::BadSchema => StoreRefusal::BadStore,
            OpenKind::Memory => StoreRefusal::Memory,
        }
    }
}
