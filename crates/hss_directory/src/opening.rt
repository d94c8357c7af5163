//! The current lower key, found at an opening.

ghost use Rattle.std.specs.Prelude.{◌≡◌, ◌≢◌, ◌≤◌, ◌<◌, ◌^◌, ◌⊎◌, ℕ, List, IsTrue, IfOk, IfErr, IsErrOf, MatchOption};
ghost use Rattle.std.specs.Prelude.{length, string_bytes};
ghost use Rattle.bec_bytes.specs.Causes.{Rose};
ghost use Rattle.bec_disk.specs.declared.part.Part.TheVariants.{Key, Used};
ghost use Rattle.bec_disk.specs.Shelf.{out};
ghost use Rattle.lms_tree.specs.SecretKey.{public_key};
ghost use Rattle.key_directory.specs.Keys.{TakesKey};
ghost use Rattle.key_directory.specs.Parts.{part_in, reading};
ghost use Rattle.hss_chain.specs.Keys.{key_bytes};
ghost use Rattle.hss_directory.specs.Faults.{lower_fault};
ghost use Rattle.hss_directory.specs.Opening.{FindsLower, IsUnfoundCause, IsUnvouchedCause, VouchesFor};
ghost use Rattle.hss_directory.specs.Places.{AreLowersIn, OnlyReads};

use crate::fault::HssFault;
use crate::lower::{Lower, low_dir};
use crate::peers::read_peers;
use bec_disk::{Gated, Shelf};
use byteorder::{BigEndian, ByteOrder};
use hss_chain::public_array;
use key_directory::{KeyMaker, KeyRefusal, put_key, take_key};
use key_index::KeyStore;
use lms_tree::{LeafGenerator, signed_has_length, verify};
use std::alloc::Global;
use update_model::AuthorKey;

/// The current lower key of this top key, by the part Peers of its directory. Where it is refused, every part is in its
/// place, and nothing was written.
pub(crate) fn current_lower<G: LeafGenerator, H: Shelf>(
    maker: &KeyMaker<G>,
    shelf: &mut H,
    dir: &str,
    top: &KeyStore<H::D>,
) -> Result<Option<Lower<H::D>>, HssFault>
    requires { IsTrue (H.state shelf.old).tells → AreLowersIn (H.state shelf.old) dir.now }
    ensures finds { IfOk result (λ lower. FindsLower dir.now top.now (H.state shelf.old) lower (H.state shelf.new)) }
    ensures only { IfErr result (λ _. OnlyReads (H.state shelf.old) (H.state shelf.new)) }
    ensures refused { IfErr result (λ why. IsTrue (H.state shelf.old).tells
        → IsUnfoundCause (H.state shelf.old) dir.now top.now why) }
    ensures later { H.faults shelf.old ≤ H.faults shelf.new }
    ensures failed { IsErrOf result HssFault.Disk → Rose (H.faults shelf.old) (H.faults shelf.new) }
{
    let Some(index) = top.last() else {
        return Ok(None);
    };
    let low = low_dir(maker.alloc, dir, index)?;
    match read_peers(maker.alloc, shelf, low.as_str())? {
        Gated::Absent => Ok(None),
        Gated::Damaged => Err(HssFault::BadKey),
        Gated::Whole(payload) => {
            match vouched_lower(maker, shelf, low, &top.public(), index, payload.as_slice()) {
                Ok(lower) => Ok(Some(lower)),
                Err(why) => Err(why),
            }
        }
    }
}

/// Takes the lower key of a directory, where this payload vouches for it.
fn vouched_lower<G: LeafGenerator, H: Shelf>(
    maker: &KeyMaker<G>,
    shelf: &mut H,
    dir: String,
    top: &AuthorKey,
    index: u32,
    payload: &[u8],
) -> Result<Lower<H::D>, HssFault>
    requires key_in { IsTrue (H.state shelf.old).tells → part_in (H.state shelf.old) (string_bytes dir) Key ≢ out }
    requires used_in { IsTrue (H.state shelf.old).tells → part_in (H.state shelf.old) (string_bytes dir) Used ≢ out }
    ensures takes { IfOk result (λ lower. TakesKey (H.state shelf.old) (string_bytes dir) lower.key (H.state shelf.new)) }
    ensures place { IfOk result (λ lower. lower.dir ≡ string_bytes dir) }
    ensures index { IfOk result (λ lower. lower.index ≡ index) }
    ensures vouches { IfOk result (λ lower. VouchesFor top.now (public_key lower.key.secret) index payload.now
        lower.top_sig) }
    ensures only { IfErr result (λ _. OnlyReads (H.state shelf.old) (H.state shelf.new)) }
    ensures refused { IfErr result (λ why. IsTrue (H.state shelf.old).tells
        → IsUnvouchedCause top.now index payload.now (reading (part_in (H.state shelf.old) (string_bytes dir) Key))
        (reading (part_in (H.state shelf.old) (string_bytes dir) Used)) why) }
    ensures later { H.faults shelf.old ≤ H.faults shelf.new }
    ensures failed { IsErrOf result HssFault.Disk → Rose (H.faults shelf.old) (H.faults shelf.new) }
{
    let key = match take_key(maker.generator, maker.alloc, shelf, dir.as_str()) {
        Ok(key) => key,
        Err(why) => return Err(lower_fault(why)),
    };
    match vouching_in(maker.alloc, top, &key.public(), index, payload) {
        Ok(top_sig) => Ok(Lower {
            dir,
            index,
            key,
            top_sig,
        }),
        Err(why) => {
            put_key(shelf, dir.as_str(), key);
            Err(why)
        }
    }
}

/// A refusal of a lower key that the part Peers vouches for.
fn lower_fault(why: KeyRefusal) -> HssFault
    ensures { result ≡ lower_fault why }
{
    match why {
        KeyRefusal::NoKey | KeyRefusal::BadKey => HssFault::BadKey,
        KeyRefusal::DiskFault => HssFault::Disk,
        KeyRefusal::Memory => HssFault::Memory,
    }
}

/// The top key's signature of this lower key by this index, in a vector of its own, where the payload has it.
fn vouching_in(
    alloc: Global,
    top: &AuthorKey,
    low: &AuthorKey,
    index: u32,
    payload: &[u8],
) -> Result<Vec<u8>, HssFault>
    ensures vouches { IfOk result (λ sig. VouchesFor top.now low.now index payload.now sig.items) }
    ensures refused { IfErr result (λ why. (why ≡ HssFault.Memory)
        ⊎ ((why ≡ HssFault.BadKey) × ((sig : List ℕ) → VouchesFor top.now low.now index payload.now sig → ⊥))) }
{
    match top_sig_in(top, low, index, payload) {
        Some(sig) => Ok(Vec::from_slice(alloc, sig)?),
        None => Err(HssFault::BadKey),
    }
}

/// The top key's signature of this lower key by this index, where the payload has it.
fn top_sig_in<'a>(
    top: &AuthorKey,
    low: &AuthorKey,
    index: u32,
    payload: &'a [u8],
) -> Option<&'a [u8]>
    ensures { MatchOption result ((sig : List ℕ) → VouchesFor top.now low.now index payload.now sig
        → ⊥) (λ sig. VouchesFor top.now low.now index payload.now sig.now) }
{
    signed_has_length();
    key_has_length(*low);
    if payload.len() < 60 {
        return None;
    }
    let (sig, key) = payload.split_at(payload.len() - 56);
    let low_bytes = public_array(low);
    let (_levels, low_key) = low_bytes.split_at(4);
    if key != low_key {
        return None;
    }
    if BigEndian::read_u32(sig) != index {
        return None;
    }
    if verify(top, low_key, sig) {
        Some(sig)
    } else {
        None
    }
}

/// How long the bytes of a key are, by its type.
#[tactic(auto, unfolding(hss_chain::specs::Keys::key_bytes))]
pub(crate) fn key_has_length(_key: AuthorKey)
    ensures { length (key_bytes _key) ≡ 56 }
{}
