ghost use Rattle.std.specs.Prelude.{◌≡◌};
ghost use Rattle.key_index.specs.declared.reserve.Reserve.TheVariants.{DiskFault};

use thiserror::Error;

/// Why no index is handed out.
#[derive(Clone, Copy, Debug, PartialEq, Eq, Error)]
pub enum Reserve {
    /// Every index is used in this store.
    #[error("every one-time key is used")]
    Spent,
    /// A call of the disk of the part Used failed. The index that was tried is used in this store.
    #[error("a disk failed")]
    DiskFault,
}

impl From<bec_disk::DiskFault> for Reserve {
    ghost from_gives = { λ _ error. error ≡ DiskFault };

    fn from(_fault: bec_disk::DiskFault) -> Reserve {
        Reserve::DiskFault
    }
}
