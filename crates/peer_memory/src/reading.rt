//! Reading peers.

ghost use Rattle.std.specs.Prelude.{◌≡◌, ◌++◌, ◌<◌, ◌≤◌, ◌*◌, ◌^◌, ◌↔◌, None, ℕ, List, IfOk, IsErrOf, IsTrue, length};
ghost use Rattle.std.specs.Int.{w16, to_be_bytes};
ghost use Rattle.std.specs.List.{list_any};
ghost use Rattle.std.specs.List.Sorted.{IsStrictlySortedBy};
ghost use Rattle.sync_frames.specs.Payload.{AreIds, counted, spelled_ids};
ghost use Rattle.sync_frames.specs.Reading.{is_next};
ghost use Rattle.update_model.specs.declared.update_id.UpdateId.{UpdateId as Id};
ghost use Rattle.update_model.specs.Entry.{id_cmp};
ghost use Rattle.update_model.specs.Form.{AreRising};
ghost use Rattle.peer_memory.specs.declared.peer.Peer.{Peer as AnyPeer};
ghost use Rattle.peer_memory.specs.Payload.{Reads, Spells, spelled_peer};
ghost use Rattle.peer_memory.specs.Peers.{IsPeer, is_named as is_its_name};

use crate::peers::is_named;
use crate::read_error::PeersError;
use crate::{MAX_HEADS, MAX_PEERS, Peer, Peers};
use byteorder::{BigEndian, ByteOrder};
use std::alloc::{AllocError, Global};
use update_model::{IdList, UpdateId};

/// The peers whose payload these bytes are, and none where they are no payload.
pub fn read_peers(alloc: Global, payload: &[u8]) -> Result<Peers, AllocError>
    ensures { IfOk result (λ peers. Reads payload.now peers) }
{
    match peers_in(alloc, payload) {
        Ok(peers) => Ok(peers),
        Err(PeersError::NoForm) => Ok(Peers::new(alloc)),
        Err(PeersError::Memory) => Err(AllocError),
    }
}

/// The peers whose payload these bytes are.
fn peers_in(alloc: Global, bytes: &[u8]) -> Result<Peers, PeersError>
    ensures peers { IfOk result (λ peers. Spells peers bytes.now) }
    ensures none { IsErrOf result PeersError.NoForm → (peers : List AnyPeer) → Spells peers bytes.now → ⊥ }
{
    let (count, mut rest) = u16_of(bytes)?;
    if MAX_PEERS < count {
        return Err(PeersError::NoForm);
    }
    let mut peers = Vec::new(alloc);
    for _ in 0..count {
        let (peer, after) = peer_of(alloc, rest)?;
        if has_name(peers.as_slice(), peer.name.as_slice()) {
            return Err(PeersError::NoForm);
        }
        peers.push(peer)?;
        rest = after;
    }
    if !rest.is_empty() {
        return Err(PeersError::NoForm);
    }
    Ok(Peers::from_vec(peers))
}

/// Whether one of these peers has this name.
fn has_name(peers: &[Peer], name: &[u8]) -> bool
    ensures { result ≡ list_any (is_its_name name.now) peers.now }
{
    peers.iter().any(|peer| is_named(peer, name))
}

/// The peer that bytes begin with, and the bytes after it.
fn peer_of(alloc: Global, bytes: &[u8]) -> Result<(Peer, &[u8]), PeersError>
    ensures parts { IfOk result (λ read. bytes.now ≡ spelled_peer read.0 ++ read.1.now) }
    ensures peer { IfOk result (λ read. IsPeer read.0) }
    ensures none { IsErrOf result PeersError.NoForm → (peer : AnyPeer) (rest : List ℕ) → IsPeer peer
        → bytes.now ≡ spelled_peer peer ++ rest → ⊥ }
{
    if bytes.len() < 32 {
        return Err(PeersError::NoForm);
    }
    let (first, rest) = bytes.split_at(32);
    let mut name = [0; 32];
    name.copy_from_slice(first);
    let (heads, rest) = ids_of(alloc, rest)?;
    let peer = Peer {
        name,
        heads: IdList::from_vec(heads),
    };
    Ok((peer, rest))
}

/// The ids that bytes begin with behind their number, and the bytes after them.
fn ids_of(alloc: Global, bytes: &[u8]) -> Result<(Vec<UpdateId>, &[u8]), PeersError>
    ensures parts { IfOk result (λ read. bytes.now ≡ counted w16 read.0.items ++ read.1.now) }
    ensures few { IfOk result (λ read. length read.0.items ≤ MAX_HEADS) }
    ensures ids { IfOk result (λ read. AreIds read.0.items) }
    ensures rising { IfOk result (λ read. IsStrictlySortedBy id_cmp read.0.items) }
    ensures none { IsErrOf result PeersError.NoForm → (ids : List Id) (rest : List ℕ) → length ids ≤ MAX_HEADS
        → AreIds ids
        → IsStrictlySortedBy id_cmp ids → bytes.now ≡ counted w16 ids ++ rest → ⊥ }
{
    let (count, rest) = u16_of(bytes)?;
    let count = usize::from(count);
    if usize::from(MAX_HEADS) < count {
        return Err(PeersError::NoForm);
    }
    if rest.len() < 32 * count {
        return Err(PeersError::NoForm);
    }
    let (block, rest) = rest.split_at(32 * count);
    let ids = ids_in(alloc, count, block)?;
    if !are_rising(ids.as_slice()) {
        return Err(PeersError::NoForm);
    }
    Ok((ids, rest))
}

/// So many ids, of which a block of 32 bytes for each is made.
fn ids_in(alloc: Global, count: usize, block: &[u8]) -> Result<Vec<UpdateId>, AllocError>
    requires { length block.now ≡ 32 * count }
    ensures block { IfOk result (λ ids. block.now ≡ spelled_ids ids.items) }
    ensures ids { IfOk result (λ ids. AreIds ids.items) }
    ensures count { IfOk result (λ ids. length ids.items ≡ count) }
{
    let mut ids = Vec::with_capacity(alloc, count)?;
    let mut rest = block;
    for _ in 0..count {
        let (first, after) = rest.split_at(32);
        let mut id = [0; 32];
        id.copy_from_slice(first);
        ids.push(UpdateId(id))?;
        rest = after;
    }
    Ok(ids)
}

/// Whether each of these ids is above the one before it.
fn are_rising(ids: &[UpdateId]) -> bool
    ensures { IsTrue result ↔ AreRising None ids.now }
{
    let mut last = None;
    for id in ids {
        if !may_follow(last, *id) {
            return false;
        }
        last = Some(*id);
    }
    true
}

/// Whether an id may come after the one before it, if there is one.
fn may_follow(last: Option<UpdateId>, id: UpdateId) -> bool
    ensures { result ≡ is_next last id }
{
    match last {
        None => true,
        Some(last) => last.cmp(&id).is_lt(),
    }
}

/// The number that the first two bytes spell, and the bytes after them.
fn u16_of(bytes: &[u8]) -> Result<(u16, &[u8]), PeersError>
    ensures parts { IfOk result (λ read. bytes.now ≡ to_be_bytes w16 read.0 ++ read.1.now) }
    ensures low { IfOk result (λ read. read.0 < 2 ^ 16) }
    ensures none { IsErrOf result PeersError.NoForm → (n : ℕ) (rest : List ℕ) → bytes.now ≡ to_be_bytes w16 n ++ rest
        → ⊥ }
{
    if bytes.len() < 2 {
        return Err(PeersError::NoForm);
    }
    let (first, rest) = bytes.split_at(2);
    Ok((BigEndian::read_u16(first), rest))
}
