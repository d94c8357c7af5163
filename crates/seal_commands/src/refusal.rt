ghost use Rattle.std.specs.Prelude.{◌≡◌};
ghost use Rattle.seal_commands.specs.Sealing.{refusal_of};

use bec_bytes::ReadError;
use hss_directory::HssFault;
use std::alloc::AllocError;

/// Why a command over seals is not done.
#[derive(Clone, Copy)]
pub enum SealRefusal {
    /// The seal is none of this input by this key.
    BadSeal,
    /// The input has more bytes than may be sealed.
    InputTooLong,
    /// The part Key of the directory is not absent.
    KeyThere,
    /// The part Key of the directory is absent.
    NoKey,
    /// The top key, or the lower key that is wanted, is damaged.
    BadKey,
    /// Every index of the top key is used, of which there are so many.
    KeySpent(u32),
    /// The shelf or a disk failed.
    Store,
    /// The source failed.
    Stream,
    /// Memory ran out.
    Memory,
}

/// The refusal that a fault of a two-level key is, whose top key has so many indices.
pub(crate) fn refusal_of(why: HssFault, count: u32) -> SealRefusal
    ensures { result ≡ refusal_of why count }
{
    match why {
        HssFault::Disk => SealRefusal::Store,
        HssFault::KeyThere => SealRefusal::KeyThere,
        HssFault::NoKey => SealRefusal::NoKey,
        HssFault::BadKey => SealRefusal::BadKey,
        HssFault::Spent => SealRefusal::KeySpent(count),
        HssFault::Memory => SealRefusal::Memory,
    }
}

impl From<AllocError> for SealRefusal {
    ghost use Rattle.std.specs.Prelude.{◌≡◌};
    ghost use Rattle.seal_commands.specs.declared.refusal.SealRefusal.TheVariants.{Memory};

    ghost from_gives = { λ _ refusal. refusal ≡ Memory };

    fn from(_error: AllocError) -> SealRefusal {
        SealRefusal::Memory
    }
}

impl From<ReadError> for SealRefusal {
    ghost use Rattle.std.specs.Prelude.{◌≡◌};
    ghost use Rattle.seal_commands.specs.Inputs.{from_reading};

    ghost from_gives = { λ error refusal. refusal ≡ from_reading error };

    fn from(error: ReadError) -> SealRefusal {
        match error {
            ReadError::Failed => SealRefusal::Stream,
            ReadError::Memory => SealRefusal::Memory,
        }
    }
}
