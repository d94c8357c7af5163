use crate::store_refusal::StoreRefusal;
use key_directory::KeyRefusal;
use thiserror::Error;

/// Why a directory is not opened.
#[derive(Clone, Copy, Debug, Error)]
pub enum OpenRefusal {
    /// Its store is not.
    #[error("{0}")]
    Store(StoreRefusal),
    /// Its key is not.
    #[error("{0}")]
    Key(KeyRefusal),
}

impl From<StoreRefusal> for OpenRefusal {
    ghost use Rattle.std.specs.Prelude.{◌≡◌};
    ghost use Rattle.store_directory.specs.declared.open_refusal.OpenRefusal.TheVariants.{Store};

    ghost from_gives = { λ why refusal. refusal ≡ Store why };

    fn from(why: StoreRefusal) -> OpenRefusal {
        OpenRefusal::Store(why)
    }
}
