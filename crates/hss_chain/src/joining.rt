//! Seals as bytes.

ghost use Rattle.std.specs.Prelude.{◌≡◌, ◌++◌, ℕ, List, IfOk, OnOk};
ghost use Rattle.update_model.specs.Form.{IsKey};
ghost use Rattle.update_model.specs.declared.author_key.AuthorKey.{AuthorKey};
ghost use Rattle.lms_tree.specs.Signature.{Signed};
ghost use Rattle.hss_chain.specs.Keys.{key_bytes};
ghost use Rattle.hss_chain.specs.Sealing.{SealedBy, public_bytes, seal_bytes};

use crate::sealing::{LEVELS, SIGNED_KEYS};
use lms_tree::signed_has_length;
use std::alloc::{AllocError, Global};
use update_model::AuthorKey;

/// The bytes of a two-level public key.
pub fn public_bytes(alloc: Global, top: &AuthorKey) -> Result<Vec<u8>, AllocError>
    ensures { IfOk result (λ bytes. bytes.items ≡ public_bytes top.now) }
{
    let mut out = Vec::with_capacity(alloc, 60)?;
    out.extend_from_slice(&LEVELS.to_be_bytes())?;
    push_key(&mut out, top)?;
    Ok(out)
}

/// The bytes of a seal.
pub fn seal_bytes(
    alloc: Global,
    top_sig: &[u8],
    low: &AuthorKey,
    low_sig: &[u8],
) -> Result<Vec<u8>, AllocError>
    ensures { IfOk result (λ bytes. bytes.items ≡ seal_bytes top_sig.now low.now low_sig.now) }
{
    let mut out = Vec::new(alloc);
    out.extend_from_slice(&SIGNED_KEYS.to_be_bytes())?;
    out.extend_from_slice(top_sig)?;
    push_key(&mut out, low)?;
    out.extend_from_slice(low_sig)?;
    Ok(out)
}

/// The same in an array.
#[tactic(auto, unfolding(crate::specs::Keys::key_bytes))]
pub fn public_array(top: &AuthorKey) -> [u8; 60]
    ensures { result ≡ public_bytes top.now }
{
    let mut out = [0; 60];
    let (levels, rest) = out.split_at_mut(4);
    let (lms, rest) = rest.split_at_mut(4);
    let (ots, rest) = rest.split_at_mut(4);
    let (ident, root) = rest.split_at_mut(16);
    levels.copy_from_slice(&LEVELS.to_be_bytes());
    lms.copy_from_slice(&top.lms.to_be_bytes());
    ots.copy_from_slice(&top.ots.to_be_bytes());
    ident.copy_from_slice(&top.ident);
    root.copy_from_slice(&top.root);
    out
}

/// Adds the bytes of a key.
#[tactic(auto, unfolding(crate::specs::Keys::key_bytes))]
pub fn push_key(out: &mut Vec<u8>, key: &AuthorKey) -> Result<(), AllocError>
    ensures { OnOk result (out.new.items ≡ out.old.items ++ key_bytes key.now) }
{
    out.extend_from_slice(&key.lms.to_be_bytes())?;
    out.extend_from_slice(&key.ots.to_be_bytes())?;
    out.extend_from_slice(&key.ident)?;
    out.extend_from_slice(&key.root)?;
    Ok(())
}

/// A top signature of a lower key and its signature of a message make a seal.
pub fn parts_make_a_seal()
    ensures { (top low : AuthorKey) (top_sig low_sig msg : List ℕ) → IsKey top → IsKey low
        → Signed top (key_bytes low) top_sig → Signed low msg low_sig
        → SealedBy (public_bytes top) msg (seal_bytes top_sig low low_sig) }
{
    signed_has_length();
}
