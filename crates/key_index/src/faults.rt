use bec_disk::DiskError;
use std::fmt;
use thiserror::Error;

/// Why a key is not opened.
#[derive(Clone, Copy, Debug, Error)]
pub enum KeyFaultKind {
    /// A call of one of the disks failed.
    #[error("a disk failed")]
    DiskFault,
    /// The part Key is damaged, its payload is no key's, or the part Used has not a byte for each index.
    #[error("the key is damaged")]
    BadKeyFile,
    /// The part Key is absent.
    #[error("there is no key")]
    NoKey,
    /// Memory ran out.
    #[error("out of memory")]
    Memory,
}

/// A key that was not opened: why, and its disks.
#[derive(Drop)]
pub struct KeyFault<D> {
    /// Why it was not opened.
    pub why: KeyFaultKind,
    /// The disk of the part Key.
    pub key: D,
    /// The disk of the part Used.
    pub used: D,
}

impl<D> fmt::Debug for KeyFault<D> {
    /// Writes the cause alone.
    fn fmt<W: fmt::Write>(&self, f: &mut fmt::Formatter<W>) -> fmt::Result {
        fmt::Debug::fmt(&self.why, f)
    }
}

/// Why a key is not created.
#[derive(Clone, Copy, Debug, Error)]
pub enum CreateKeyKind {
    /// A call of one of the disks failed.
    #[error("a disk failed")]
    DiskFault,
    /// The part Key is not absent.
    #[error("there is a key")]
    KeyThere,
    /// Memory ran out. Nothing was written.
    #[error("out of memory")]
    Memory,
}

/// A key that was not created: why, and its disks.
#[derive(Drop)]
pub struct CreateKey<D> {
    /// Why it was not created.
    pub why: CreateKeyKind,
    /// The disk of the part Key.
    pub key: D,
    /// The disk of the part Used.
    pub used: D,
}

impl<D> fmt::Debug for CreateKey<D> {
    /// Writes the cause alone.
    fn fmt<W: fmt::Write>(&self, f: &mut fmt::Formatter<W>) -> fmt::Result {
        fmt::Debug::fmt(&self.why, f)
    }
}

impl From<DiskError> for KeyFaultKind {
    ghost use Rattle.std.specs.Prelude.{◌≡◌};
    ghost use Rattle.key_index.specs.Faults.{opening_kind};

    ghost from_gives = { λ error kind. kind ≡ opening_kind error };

    fn from(error: DiskError) -> KeyFaultKind {
        match error {
            DiskError::DiskFault => KeyFaultKind::DiskFault,
            DiskError::Memory => KeyFaultKind::Memory,
        }
    }
}

impl From<DiskError> for CreateKeyKind {
    ghost use Rattle.std.specs.Prelude.{◌≡◌};
    ghost use Rattle.key_index.specs.Faults.{creating_kind};

    ghost from_gives = { λ error kind. kind ≡ creating_kind error };

    fn from(error: DiskError) -> CreateKeyKind {
        match error {
            DiskError::DiskFault => CreateKeyKind::DiskFault,
            DiskError::Memory => CreateKeyKind::Memory,
        }
    }
}

impl From<bec_disk::DiskFault> for CreateKeyKind {
    ghost use Rattle.std.specs.Prelude.{◌≡◌};
    ghost use Rattle.key_index.specs.declared.faults.CreateKeyKind.TheVariants.{DiskFault};

    ghost from_gives = { λ _ kind. kind ≡ DiskFault };

    fn from(_fault: bec_disk::DiskFault) -> CreateKeyKind {
        CreateKeyKind::DiskFault
    }
}
