use bec_disk::{DiskError, DiskFault};
use key_directory::KeyRefusal;
use key_index::CreateKeyKind;
use std::alloc::AllocError;
use thiserror::Error;

/// Why a call of a two-level key is not done.
#[derive(Clone, Copy, Debug, Error)]
pub enum HssFault {
    /// The shelf or a disk failed, whose count of faults rose.
    #[error("a disk failed")]
    Disk,
    /// The part Key of the directory is not absent.
    #[error("there is a key")]
    KeyThere,
    /// The part Key of the directory is absent.
    #[error("there is no key")]
    NoKey,
    /// The top key, or the lower key that is wanted, is damaged.
    #[error("the key is damaged")]
    BadKey,
    /// Every index of the top key is used, and no lower key has one left.
    #[error("every one-time key is used")]
    Spent,
    /// Memory ran out.
    #[error("out of memory")]
    Memory,
}

impl From<AllocError> for HssFault {
    ghost use Rattle.std.specs.Prelude.{◌≡◌};
    ghost use Rattle.hss_directory.specs.declared.fault.HssFault.TheVariants.{Memory};

    ghost from_gives = { λ _ fault. fault ≡ Memory };

    fn from(_error: AllocError) -> HssFault {
        HssFault::Memory
    }
}

impl From<DiskFault> for HssFault {
    ghost use Rattle.std.specs.Prelude.{◌≡◌};
    ghost use Rattle.hss_directory.specs.declared.fault.HssFault.TheVariants.{Disk};

    ghost from_gives = { λ _ fault. fault ≡ Disk };

    fn from(_fault: DiskFault) -> HssFault {
        HssFault::Disk
    }
}

impl From<DiskError> for HssFault {
    ghost use Rattle.std.specs.Prelude.{◌≡◌};
    ghost use Rattle.hss_directory.specs.Faults.{from_disk};

    ghost from_gives = { λ error fault. fault ≡ from_disk error };

    fn from(error: DiskError) -> HssFault {
        match error {
            DiskError::DiskFault => HssFault::Disk,
            DiskError::Memory => HssFault::Memory,
        }
    }
}

impl From<CreateKeyKind> for HssFault {
    ghost use Rattle.std.specs.Prelude.{◌≡◌};
    ghost use Rattle.hss_directory.specs.Faults.{from_creating};

    ghost from_gives = { λ kind fault. fault ≡ from_creating kind };

    fn from(kind: CreateKeyKind) -> HssFault {
        match kind {
            CreateKeyKind::DiskFault => HssFault::Disk,
            CreateKeyKind::KeyThere => HssFault::KeyThere,
            CreateKeyKind::Memory => HssFault::Memory,
        }
    }
}

impl From<KeyRefusal> for HssFault {
    ghost use Rattle.std.specs.Prelude.{◌≡◌};
    ghost use Rattle.hss_directory.specs.Faults.{from_opening};

    ghost from_gives = { λ why fault. fault ≡ from_opening why };

    fn from(why: KeyRefusal) -> HssFault {
        match why {
            KeyRefusal::NoKey => HssFault::NoKey,
            KeyRefusal::BadKey => HssFault::BadKey,
            KeyRefusal::DiskFault => HssFault::Disk,
            KeyRefusal::Memory => HssFault::Memory,
        }
    }
}
