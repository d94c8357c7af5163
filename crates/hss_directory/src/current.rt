//! The current lower key: it seals, and is put back.

ghost use Rattle.std.specs.Prelude.{◌≡◌, ◌≤◌, ◌<◌, ◌⊎◌, IsTrue, IfOk, IfErr, IfSome, IsErrOf, None, Some};
ghost use Rattle.bec_bytes.specs.Causes.{Rose};
ghost use Rattle.update_model.specs.Form.{IsKey, IsKnownKey};
ghost use Rattle.lms_tree.specs.SecretKey.{public_key};
ghost use Rattle.lms_tree.specs.Signature.{Signed};
ghost use Rattle.hss_chain.specs.Keys.{key_bytes};
ghost use Rattle.hss_chain.specs.Sealing.{SealedBy, public_bytes};
ghost use Rattle.hss_directory.specs.Calls.{KeepsHss, KeepsUnspent, PutsLower, Readies, RefusesToReady, SealsBy};
ghost use Rattle.hss_directory.specs.Calls.{SealsNone, hss_of};
ghost use Rattle.hss_directory.specs.Places.{Holds, HoldsKey};
ghost use Rattle.hss_directory.specs.Values.{HasLeft, IsReadable, IsSound, IsSpent};

use crate::fault::HssFault;
use crate::lower::Lower;
use crate::making::next_lower;
use crate::signing::signature_of;
use bec_disk::{Disk, Shelf};
use hss_chain::{parts_make_a_seal, seal_bytes};
use key_directory::{KeyMaker, put_key};
use key_index::KeyStore;
use lms_tree::{LeafGenerator, signed_has_length};
use rand_core::Rng;
use std::alloc::Global;
use update_model::AuthorKey;

/// A lower key that has an index left: the current one, or where there is none or it is spent, the next one.
pub(crate) fn ready_lower<G: LeafGenerator, H: Shelf, R: Rng>(
    maker: &KeyMaker<G>,
    shelf: &mut H,
    dir: &str,
    top: &mut KeyStore<H::D>,
    lower: Option<Lower<H::D>>,
    random: &mut R,
) -> Result<Lower<H::D>, HssFault>
    requires held { IsTrue (H.state shelf.old).tells → Holds (H.state shelf.old) (hss_of dir.now top.old lower) }
    requires sound { IsSound (hss_of dir.now top.old lower) }
    ensures readies { IfOk result (λ ready. Readies (R.stream random.old) (H.state shelf.old)
        (hss_of dir.now top.old lower) (hss_of dir.now top.new (Some ready)) (H.state shelf.new) (R.stream random.new)) }
    ensures refused { IfErr result (λ why. RefusesToReady (R.stream random.old) (H.state shelf.old)
        (hss_of dir.now top.old lower) why (hss_of dir.now top.new None) (H.state shelf.new) (R.stream random.new)) }
    ensures has_left { IfOk result (λ ready. HasLeft ready.key) }
    ensures keeps { IfOk result (λ ready. KeepsHss (H.state shelf.old) (hss_of dir.now top.old lower)
        (H.state shelf.new) (hss_of dir.now top.new (Some ready))) }
    ensures keeps_none { IfErr result (λ _. KeepsHss (H.state shelf.old) (hss_of dir.now top.old lower)
        (H.state shelf.new) (hss_of dir.now top.new None)) }
    ensures reads { IfSome lower (λ lower. IsSpent lower.key → IsReadable lower.key) }
    ensures later { H.faults shelf.old ≤ H.faults shelf.new }
    ensures failed { IsErrOf result HssFault.Disk → Rose (H.faults shelf.old) (H.faults shelf.new)
        ⊎ Rose top.old.parts.used_faults top.new.parts.used_faults }
{
    match unspent(shelf, lower) {
        Some(kept) => Ok(kept),
        None => next_lower(maker, shelf, dir, top, random),
    }
}

/// The seal of a message by a lower key that this top key signed.
pub(crate) fn seal_below<D: Disk, R: Rng>(
    alloc: Global,
    top: &AuthorKey,
    lower: &mut Lower<D>,
    random: &mut R,
    msg: &[u8],
) -> Result<Vec<u8>, HssFault>
    requires signed { Signed top.now (key_bytes (public_key lower.old.key.secret)) lower.old.top_sig }
    requires has_left { HasLeft lower.old.key }
    ensures seals { IfOk result (λ seal. SealsBy lower.old (R.stream random.old) msg.now seal.items lower.new
        (R.stream random.new)) }
    ensures refused { IfErr result (λ why. SealsNone lower.old (R.stream random.old) msg.now why lower.new
        (R.stream random.new)) }
    ensures sealed { IfOk result (λ seal. SealedBy (public_bytes top.now) msg.now seal.items) }
    ensures failed { IsErrOf result HssFault.Disk → Rose lower.old.key.parts.used_faults lower.new.key.parts.used_faults }
{
    signed_has_length();
    parts_make_a_seal();
    let key = lower.key.public();
    is_key(key);
    is_key(*top);
    let sig = signature_of(alloc, &mut lower.key, random, msg)?;
    Ok(seal_bytes(alloc, lower.top_sig.as_slice(), &key, &sig)?)
}

/// What holds of a key of known types by its type.
fn is_key(_key: AuthorKey)
    ensures { IsKnownKey _key → IsKey _key }
{}

/// Keeps a lower key that has an index left, and puts back one that is spent.
pub(crate) fn unspent<H: Shelf>(shelf: &mut H, lower: Option<Lower<H::D>>) -> Option<Lower<H::D>>
    requires { IsTrue (H.state shelf.old).tells
        → IfSome lower (λ lower. HoldsKey (H.state shelf.old) lower.dir lower.key) }
    ensures keeps { KeepsUnspent (H.state shelf.old) lower result (H.state shelf.new) }
    ensures reads { IfSome lower (λ lower. IsSpent lower.key → IsReadable lower.key) }
    ensures later { H.faults shelf.old ≤ H.faults shelf.new }
{
    let Some(lower) = lower else {
        return None;
    };
    if lower.key.next().is_some() {
        return Some(lower);
    }
    put_lower(shelf, Some(lower));
    None
}

/// Puts the parts of a lower key back, where one is held.
pub(crate) fn put_lower<H: Shelf>(shelf: &mut H, lower: Option<Lower<H::D>>)
    requires { IsTrue (H.state shelf.old).tells
        → IfSome lower (λ lower. HoldsKey (H.state shelf.old) lower.dir lower.key) }
    ensures puts { PutsLower (H.state shelf.old) lower (H.state shelf.new) }
    ensures reads { IfSome lower (λ lower. IsReadable lower.key) }
    ensures later { H.faults shelf.old ≤ H.faults shelf.new }
    ensures faulted { IfSome lower (λ lower. 0 < lower.key.parts.used_faults
        → Rose (H.faults shelf.old) (H.faults shelf.new)) }
{
    if let Some(lower) = lower {
        let Lower {
            dir,
            index: _,
            key,
            top_sig: _,
        } = lower;
        put_key(shelf, dir.as_str(), key);
    }
}

/// Puts a value in a place where there is none.
pub(crate) fn fill<T>(place: &mut Option<T>, value: T)
    requires { place.old ≡ None }
    ensures { place.new ≡ Some value }
{
    match place.replace(value) {
        None => {}
        Some(_before) => unreachable!(),
    }
}
