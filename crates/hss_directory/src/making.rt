//! The next lower key.

ghost use Rattle.std.specs.Prelude.{◌≡◌, ◌≢◌, ◌≤◌, ◌<◌, ◌^◌, ◌⊎◌, ◌++◌, IsTrue, IfOk, IfErr, IsErrOf};
ghost use Rattle.bec_bytes.specs.Causes.{Rose};
ghost use Rattle.bec_disk.specs.declared.part.Part.TheVariants.{Key, Used, Peers};
ghost use Rattle.bec_disk.specs.Shelf.{out};
ghost use Rattle.key_directory.specs.Parts.{part_in};
ghost use Rattle.hss_chain.specs.Keys.{key_bytes};
ghost use Rattle.hss_directory.specs.Faults.{making_fault};
ghost use Rattle.hss_directory.specs.Lower.{LetsLowerGo, MakesLower, OpensNoLower, RefusesLower, TakesLower, Vouches};
ghost use Rattle.hss_directory.specs.Lower.{VouchesNot};
ghost use Rattle.hss_directory.specs.Places.{AreLowersIn};
ghost use Rattle.hss_directory.specs.Values.{HasLeft};

use crate::fault::HssFault;
use crate::lower::{Lower, low_dir, types_of};
use crate::opening::key_has_length;
use crate::peers::write_peers;
use crate::signing::signature_of;
use bec_disk::Shelf;
use hss_chain::push_key;
use key_directory::{KeyMaker, KeyRefusal, new_key, put_key, take_key};
use key_index::{CreateKeyKind, KeyStore};
use lms_tree::{KeyTypes, LeafGenerator, signed_has_length};
use rand_core::Rng;
use std::alloc::{AllocError, Global};
use update_model::AuthorKey;

/// Makes the lower key of the least top index that is not used: its key, which is taken where it is there, then the top
/// key's signature of it, and then the part Peers. Where it is refused, no part of a lower key is handed out.
pub(crate) fn next_lower<G: LeafGenerator, H: Shelf, R: Rng>(
    maker: &KeyMaker<G>,
    shelf: &mut H,
    dir: &str,
    top: &mut KeyStore<H::D>,
    random: &mut R,
) -> Result<Lower<H::D>, HssFault>
    requires { IsTrue (H.state shelf.old).tells → AreLowersIn (H.state shelf.old) dir.now }
    ensures makes { IfOk result (λ lower. MakesLower (R.stream random.old) (H.state shelf.old) dir.now top.old lower
        top.new (H.state shelf.new) (R.stream random.new)) }
    ensures refused { IfErr result (λ why. RefusesLower (R.stream random.old) (H.state shelf.old) dir.now top.old why
        top.new (H.state shelf.new) (R.stream random.new)) }
    ensures small { IfOk result (λ lower. lower.index < 2 ^ 32) }
    ensures later { H.faults shelf.old ≤ H.faults shelf.new }
    ensures failed { IsErrOf result HssFault.Disk → Rose (H.faults shelf.old) (H.faults shelf.new)
        ⊎ Rose top.old.parts.used_faults top.new.parts.used_faults }
{
    let Some(index) = top.next() else {
        return Err(HssFault::Spent);
    };
    let low = low_dir(maker.alloc, dir, index)?;
    let types = types_of(&top.public());
    let key = open_lower(maker, shelf, low.as_str(), types, random)?;
    match vouch(maker.alloc, shelf, low.as_str(), top, &key.public(), random) {
        Ok(top_sig) => Ok(Lower {
            dir: low,
            index,
            key,
            top_sig,
        }),
        Err(why) => {
            put_key(shelf, low.as_str(), key);
            Err(why)
        }
    }
}

/// Takes the key of a directory, or makes one of these types where there is none. It has an index left.
fn open_lower<G: LeafGenerator, H: Shelf, R: Rng>(
    maker: &KeyMaker<G>,
    shelf: &mut H,
    dir: &str,
    types: KeyTypes,
    random: &mut R,
) -> Result<KeyStore<H::D>, HssFault>
    requires key_in { IsTrue (H.state shelf.old).tells → part_in (H.state shelf.old) dir.now Key ≢ out }
    requires used_in { IsTrue (H.state shelf.old).tells → part_in (H.state shelf.old) dir.now Used ≢ out }
    ensures takes { IfOk result (λ key. TakesLower types.lms types.ots (R.stream random.old) (H.state shelf.old) dir.now
        key (H.state shelf.new) (R.stream random.new)) }
    ensures has_left { IfOk result (λ key. HasLeft key) }
    ensures lets_go { IfErr result (λ why. OpensNoLower types.lms types.ots (R.stream random.old) (H.state shelf.old)
        dir.now why (H.state shelf.new) (R.stream random.new)) }
    ensures later { H.faults shelf.old ≤ H.faults shelf.new }
    ensures failed { IsErrOf result HssFault.Disk → Rose (H.faults shelf.old) (H.faults shelf.new) }
{
    let key = take_or_make(maker, shelf, dir, types, random)?;
    if key.next().is_some() {
        return Ok(key);
    }
    put_key(shelf, dir, key);
    Err(HssFault::BadKey)
}

/// Takes the key of a directory, or makes one of these types where there is none.
fn take_or_make<G: LeafGenerator, H: Shelf, R: Rng>(
    maker: &KeyMaker<G>,
    shelf: &mut H,
    dir: &str,
    types: KeyTypes,
    random: &mut R,
) -> Result<KeyStore<H::D>, HssFault>
    requires key_in { IsTrue (H.state shelf.old).tells → part_in (H.state shelf.old) dir.now Key ≢ out }
    requires used_in { IsTrue (H.state shelf.old).tells → part_in (H.state shelf.old) dir.now Used ≢ out }
    ensures takes { IfOk result (λ key. TakesLower types.lms types.ots (R.stream random.old) (H.state shelf.old) dir.now
        key (H.state shelf.new) (R.stream random.new)) }
    ensures lets_go { IfErr result (λ why. LetsLowerGo types.lms types.ots (R.stream random.old) (H.state shelf.old)
        dir.now why (H.state shelf.new) (R.stream random.new)) }
    ensures later { H.faults shelf.old ≤ H.faults shelf.new }
    ensures failed { IsErrOf result HssFault.Disk → Rose (H.faults shelf.old) (H.faults shelf.new) }
{
    match take_key(maker.generator, maker.alloc, shelf, dir) {
        Ok(key) => Ok(key),
        Err(KeyRefusal::NoKey) => match new_key(
            maker.generator,
            maker.alloc,
            shelf,
            dir,
            types,
            random,
        ) {
            Ok(key) => Ok(key),
            Err(why) => Err(making_fault(why)),
        },
        Err(why) => Err(HssFault::from(why)),
    }
}

/// A refusal to make a lower key in a directory that had none.
fn making_fault(why: CreateKeyKind) -> HssFault
    ensures { result ≡ making_fault why }
{
    match why {
        CreateKeyKind::KeyThere => HssFault::BadKey,
        CreateKeyKind::DiskFault => HssFault::Disk,
        CreateKeyKind::Memory => HssFault::Memory,
    }
}

/// Signs a lower key by the top key, and then writes both as the part Peers of its directory.
fn vouch<H: Shelf, R: Rng>(
    alloc: Global,
    shelf: &mut H,
    dir: &str,
    top: &mut KeyStore<H::D>,
    low: &AuthorKey,
    random: &mut R,
) -> Result<Vec<u8>, HssFault>
    requires has_left { HasLeft top.old }
    requires peers_in { IsTrue (H.state shelf.old).tells → part_in (H.state shelf.old) dir.now Peers ≢ out }
    ensures vouches { IfOk result (λ sig. Vouches (R.stream random.old) (H.state shelf.old) dir.now top.old low.now
        sig.items top.new (H.state shelf.new) (R.stream random.new)) }
    ensures refused { IfErr result (λ why. VouchesNot (R.stream random.old) (H.state shelf.old) dir.now top.old low.now
        why top.new (H.state shelf.new) (R.stream random.new)) }
    ensures later { H.faults shelf.old ≤ H.faults shelf.new }
    ensures failed { IsErrOf result HssFault.Disk → Rose (H.faults shelf.old) (H.faults shelf.new)
        ⊎ Rose top.old.parts.used_faults top.new.parts.used_faults }
{
    signed_has_length();
    key_has_length(*low);
    let bytes = bytes_of(alloc, low)?;
    let sig = signature_of(alloc, top, random, bytes.as_slice())?;
    let payload = joined(alloc, sig.as_slice(), bytes.as_slice())?;
    write_peers(shelf, dir, payload.as_slice())?;
    Ok(sig)
}

/// The bytes of a key, in a vector of their own.
fn bytes_of(alloc: Global, key: &AuthorKey) -> Result<Vec<u8>, AllocError>
    ensures { IfOk result (λ bytes. bytes.items ≡ key_bytes key.now) }
{
    let mut bytes = Vec::new(alloc);
    push_key(&mut bytes, key)?;
    Ok(bytes)
}

/// These bytes, and then those.
fn joined(alloc: Global, front: &[u8], rest: &[u8]) -> Result<Vec<u8>, AllocError>
    ensures { IfOk result (λ bytes. bytes.items ≡ front.now ++ rest.now) }
{
    let mut bytes = Vec::from_slice(alloc, front)?;
    bytes.extend_from_slice(rest)?;
    Ok(bytes)
}
