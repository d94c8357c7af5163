use std::alloc::AllocError;
use std::fmt;
use thiserror::Error;
use update_model::UpdateId;

/// The disks that a replica writes when it makes an update.
#[derive(Clone, Copy, PartialEq, Eq)]
pub enum Side {
    /// A disk of the key.
    Key,
    /// The disk of the log.
    Log,
}

/// Why no update was made. Where there is more than one reason, it is the first in this order.
#[derive(Clone, Copy, PartialEq, Eq, Error)]
pub enum MakeFault {
    /// The rule lists authors, and not the key.
    #[error("the author is not listed")]
    NotListed,
    /// There are so many heads, more than the 1,024 that an update may name.
    #[error("there are too many heads")]
    TooManyHeads(u32),
    /// The update would not be valid: for this reason, at the operation with this number, from 0.
    #[error("the update is not valid")]
    Invalid {
        /// One of the constants of `table_model::reason`.
        reason: u8,
        /// The number of the operation.
        operation: u16,
    },
    /// The update would have so many bytes, more than the 262,144 that it may have.
    #[error("the update is too long")]
    TooLong(u64),
    /// One more update would pass a limit of the store.
    #[error("the store is full")]
    Full,
    /// Every index of the key is used.
    #[error("every one-time key is used")]
    Spent,
    /// The update that was signed has the id of one that is held, which takes colliding digests. The index stays used.
    #[error("the id is taken")]
    Taken(UpdateId),
    /// A call of this disk failed.
    #[error("a disk failed")]
    DiskFault(Side),
    /// Memory ran out. Where it ran out behind the signature, the index stays used.
    #[error("out of memory")]
    Memory,
}

/// What is shown to people too: the numbers stand in the fault itself.
impl fmt::Debug for MakeFault {
    fn fmt<W: fmt::Write>(&self, f: &mut fmt::Formatter<W>) -> fmt::Result {
        fmt::Display::fmt(self, f)
    }
}

impl From<AllocError> for MakeFault {
    ghost use Rattle.std.specs.Prelude.{◌≡◌};
    ghost use Rattle.replica.specs.declared.make_fault.MakeFault.TheVariants.{Memory};

    ghost from_gives = { λ _ fault. fault ≡ Memory };

    fn from(_error: AllocError) -> MakeFault {
        MakeFault::Memory
    }
}
