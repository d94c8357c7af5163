//! Public keys as bytes.

ghost use Rattle.std.specs.Prelude.{◌≡◌, ◌↔◌, IsTrue, MatchOption};
ghost use Rattle.update_model.specs.Form.{IsKey, IsKnownKey};
ghost use Rattle.update_model.specs.declared.author_key.AuthorKey.{AuthorKey};
ghost use Rattle.hss_chain.specs.Keys.{key_bytes};

use byteorder::{BigEndian, ByteOrder};
use update_model::AuthorKey;

/// The key of known types whose bytes these are, or `None` where they are those of no such key.
pub fn read_key(bytes: &[u8]) -> Option<AuthorKey>
    ensures { MatchOption result ((key : AuthorKey) → IsKey key → bytes.now ≡ key_bytes key → ⊥) (λ key. IsKey key
        × (bytes.now ≡ key_bytes key)) }
{
    if bytes.len() != 56 {
        return None;
    }
    let mut ident = [0; 16];
    ident.copy_from_slice(&bytes[8..24]);
    let mut root = [0; 32];
    root.copy_from_slice(&bytes[24..56]);
    let key = AuthorKey {
        lms: BigEndian::read_u32(bytes),
        ots: BigEndian::read_u32(&bytes[4..]),
        ident,
        root,
    };
    if is_known(&key) { Some(key) } else { None }
}

/// Whether both types are known.
pub(crate) fn is_known(key: &AuthorKey) -> bool
    ensures { IsTrue result ↔ IsKnownKey key.now }
{
    5 <= key.lms && key.lms <= 7 && 1 <= key.ots && key.ots <= 4
}
