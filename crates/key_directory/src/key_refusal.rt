use bec_disk::DiskError;
use key_index::KeyFaultKind;
use thiserror::Error;

/// Why the key of a directory is not opened.
#[derive(Clone, Copy, Debug, Error)]
pub enum KeyRefusal {
    /// There is no part Key, or it is absent.
    #[error("there is no key")]
    NoKey,
    /// The part Key is not absent, and there is no part Used, or the two are of no key.
    #[error("the key is damaged")]
    BadKey,
    /// The shelf or one of its disks failed.
    #[error("a disk failed")]
    DiskFault,
    /// Memory ran out.
    #[error("out of memory")]
    Memory,
}

impl From<DiskError> for KeyRefusal {
    ghost use Rattle.std.specs.Prelude.{◌≡◌};
    ghost use Rattle.key_directory.specs.Refusals.{key_from_disk};

    ghost from_gives = { λ error refusal. refusal ≡ key_from_disk error };

    fn from(error: DiskError) -> KeyRefusal {
        match error {
            DiskError::DiskFault => KeyRefusal::DiskFault,
            DiskError::Memory => KeyRefusal::Memory,
        }
    }
}

impl From<bec_disk::DiskFault> for KeyRefusal {
    ghost use Rattle.std.specs.Prelude.{◌≡◌};
    ghost use Rattle.key_directory.specs.declared.key_refusal.KeyRefusal.TheVariants.{DiskFault};

    ghost from_gives = { λ _ refusal. refusal ≡ DiskFault };

    fn from(_fault: bec_disk::DiskFault) -> KeyRefusal {
        KeyRefusal::DiskFault
    }
}

impl From<KeyFaultKind> for KeyRefusal {
    ghost use Rattle.std.specs.Prelude.{◌≡◌};
    ghost use Rattle.key_directory.specs.Refusals.{key_from_opening};

    ghost from_gives = { λ kind refusal. refusal ≡ key_from_opening kind };

    fn from(kind: KeyFaultKind) -> KeyRefusal {
        match kind {
            KeyFaultKind::DiskFault => KeyRefusal::DiskFault,
            KeyFaultKind::BadKeyFile => KeyRefusal::BadKey,
            KeyFaultKind::NoKey => KeyRefusal::NoKey,
            KeyFaultKind::Memory => KeyRefusal::Memory,
        }
    }
}
