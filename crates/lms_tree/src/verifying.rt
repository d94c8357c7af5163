// Whether a signature is valid.

ghost use Rattle.std.specs.Prelude.{◌≡◌, ◌↔◌, IsTrue};
ghost use Rattle.std.specs.Option.{SomeIff};
ghost use Rattle.lms_tree.specs.Signature.{HasForm, Signed, candidate_root};

use crate::lms_type::LmsType;
use crate::nodes::{climb, leaf_node};
use byteorder::{BigEndian, ByteOrder};
use lm_ots::{OtsType, candidate};
use update_model::AuthorKey;

// The root that the signature leads to (RFC 8554, section 5.4.2, algorithm 6a), where it has the form of
// one of these types.
fn candidate_root(
    lms: LmsType,
    ots: OtsType,
    ident: &[u8; 16],
    msg: &[u8],
    sig: &[u8],
) -> Option<[u8; 32]>
    ensures { SomeIff result (HasForm lms ots sig.now) (candidate_root lms ots ident.now msg.now sig.now) }
{
    if sig.len() != lms.signature_length(ots) {
        return None;
    }
    let path_start = 8 + ots.signature_length();
    let q = BigEndian::read_u32(sig);
    let tree_word = BigEndian::read_u32(&sig[path_start - 4..]);
    if q >= lms.leaf_count() || tree_word != lms.type_word() {
        return None;
    }
    match candidate(ots, ident, q, msg, &sig[4..path_start - 4]) {
        Some(value) => {
            let leaf = lms.leaf_count() + q;
            Some(climb(
                lms,
                ident,
                leaf,
                leaf_node(ident, leaf, &value),
                &sig[path_start..],
            ))
        }
        None => None,
    }
}

/// Whether `sig` is a valid signature of `msg` under `key`: it has the parts and the length of the key's
/// types, both types are those of the key, its leaf is one of the tree, and it leads to the key's root.
/// A key with a type that is not known has no valid signature.
pub fn verify(key: &AuthorKey, msg: &[u8], sig: &[u8]) -> bool
    ensures { IsTrue result ↔ Signed key.now msg.now sig.now }
{
    match (
        LmsType::from_type_word(key.lms),
        OtsType::from_type_word(key.ots),
    ) {
        (Some(lms), Some(ots)) => match candidate_root(lms, ots, &key.ident, msg, sig) {
            Some(root) => root == key.root,
            None => false,
        },
        _ => false,
    }
}
