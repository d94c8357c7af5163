//! The one-time keys by which updates are signed.

ghost use Rattle.std.specs.Prelude.{◌≡◌};
ghost use Rattle.key_audit.specs.Walk.{one_time_of};

use crate::reading::{author_of, index_of};
use update_check::Checked;
use update_model::AuthorKey;

/// A one-time key: an author's key, and an index of it. They order as the bytes of the key and the index do, since
/// the words of the key's types are spelled with the high byte first.
#[derive(Clone, Copy, PartialEq, Eq, PartialOrd, Ord)]
pub struct OneTime {
    /// The author's key.
    pub key: AuthorKey,
    /// The index.
    pub index: u32,
}

/// The one-time key of an update.
pub fn one_time_of(update: &Checked) -> OneTime
    ensures { result ≡ one_time_of update.now }
{
    OneTime {
        key: author_of(update),
        index: index_of(update),
    }
}
