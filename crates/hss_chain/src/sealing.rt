//! Whether a seal is valid.

ghost use Rattle.std.specs.Prelude.{◌≡◌, ◌↔◌, ◌++◌, ◌^◌, ◌<◌, ℕ, List, IsTrue, MatchOption};
ghost use Rattle.std.specs.Int.{w32, to_be_bytes};
ghost use Rattle.update_model.specs.declared.author_key.AuthorKey.{AuthorKey};
ghost use Rattle.update_model.specs.Form.{IsKey, signature_length};
ghost use Rattle.hss_chain.specs.Keys.{key_bytes};
ghost use Rattle.hss_chain.specs.Sealing.{HaveParts, SealParts, SealedBy, public_bytes, seal_bytes};

use crate::keys::read_key;
use byteorder::{BigEndian, ByteOrder};
use lms_tree::{signed_has_length, verify};
use update_model::{AuthorKey, signature_len};

/// The levels of a two-level key.
pub(crate) const LEVELS: u32 = 2;

/// The signed public keys in its seals.
pub(crate) const SIGNED_KEYS: u32 = 1;

/// Whether `sig` is a seal of `msg` by the two-level key `key`: both have exactly their parts, the keys are of known
/// types, the top key signed the lower one, and the lower one signed the message. It takes no memory.
pub fn verify_hss(key: &[u8], msg: &[u8], sig: &[u8]) -> bool
    ensures { IsTrue result ↔ SealedBy key.now msg.now sig.now }
{
    signed_has_length();
    match parts_of(key, sig) {
        Some(parts) => {
            verify(&parts.top, parts.low_bytes, parts.top_sig)
                && verify(&parts.low, msg, parts.low_sig)
        }
        None => false,
    }
}

/// The parts of a public key and a seal.
#[derive(Drop)]
struct Parts<'a> {
    top: AuthorKey,
    top_sig: &'a [u8],
    low: AuthorKey,
    low_bytes: &'a [u8],
    low_sig: &'a [u8],
}

/// The parts that the key and the seal have, or `None` where they have none.
fn parts_of<'a>(key: &[u8], sig: &'a [u8]) -> Option<Parts<'a>>
    ensures { MatchOption result
        ((parts : SealParts) → HaveParts key.now sig.now parts → ⊥)
        (λ parts. HaveParts key.now sig.now (record {
          top = parts.top;
          top_sig = parts.top_sig.now;
          low = parts.low;
          low_sig = parts.low_sig.now;
        }) × (parts.low_bytes.now ≡ key_bytes parts.low)) }
{
    let Some(top_bytes) = behind(key, LEVELS) else {
        return None;
    };
    let Some(top) = read_key(top_bytes) else {
        return None;
    };
    let Some(signed) = behind(sig, SIGNED_KEYS) else {
        return None;
    };
    let size = signature_len(&top) as usize;
    if signed.len() < size + 56 {
        return None;
    }
    let (top_sig, rest) = signed.split_at(size);
    let (low_bytes, low_sig) = rest.split_at(56);
    let Some(low) = read_key(low_bytes) else {
        return None;
    };
    Some(Parts {
        top,
        top_sig,
        low,
        low_bytes,
        low_sig,
    })
}

/// What stands behind this number, or `None` where the bytes do not begin with it.
fn behind(bytes: &[u8], number: u32) -> Option<&[u8]>
    ensures { MatchOption result
        ((rest : List ℕ) → bytes.now ≡ to_be_bytes w32 number ++ rest → ⊥)
        (λ rest. bytes.now ≡ to_be_bytes w32 number ++ rest.now) }
{
    if bytes.len() < 4 || BigEndian::read_u32(bytes) != number {
        return None;
    }
    Some(&bytes[4..])
}
