ghost use Rattle.std.specs.Prelude.{◌≡◌, ◌<◌, ◌≤◌, ◌^◌, [], IfOk, OnErr, OnOk, find, length, option_copied};
ghost use Rattle.std.specs.Prelude.{vec_capacity, vec_len};
ghost use Rattle.std.specs.List.Sorted.{IsStrictlySortedBy};
ghost use Rattle.sync_frames.specs.Payload.{AreIds};
ghost use Rattle.update_model.specs.Entry.{id_cmp};
ghost use Rattle.peer_memory.specs.declared.limits.TheConstants.{MAX_HEADS};
ghost use Rattle.peer_memory.specs.Payload.{Spells};
ghost use Rattle.peer_memory.specs.Peers.{ArePeers, Remembers, heads_under, is_named as has_name, others, with_room};

use crate::ids::least_of;
use crate::writing::put_peers;
use crate::{MAX_PEERS, Peer};
use std::alloc::{AllocError, Global};
use std::marker::Model;
use update_model::{IdList, UpdateId};

/// Peers and what is remembered of them, the one that was remembered longest ago first.
///
/// Its type keeps that there are at most 256 peers with at most 4,096 ids each, which rise, and that no two have one
/// name.
#[derive(Drop)]
pub struct Peers {
    entries: Vec<Peer>,
}

impl Model for Peers {
    ghost use Rattle.std.specs.Prelude.{List};
    ghost use Rattle.peer_memory.specs.declared.peer.Peer.{Peer};
    ghost use Rattle.peer_memory.specs.Peers.{ArePeers};

    ghost Value = { List Peer };

    ghost view = { λ peers. peers.entries.items };

    ghost invariant = { λ peers. ArePeers peers.entries.items };
}

impl Peers {
    /// No peers. It takes no memory.
    pub fn new(alloc: Global) -> Peers
        ensures { result ≡ [] }
    {
        Peers {
            entries: Vec::new(alloc),
        }
    }

    /// Takes over peers.
    pub(crate) fn from_vec(entries: Vec<Peer>) -> Peers
        requires { ArePeers entries.items }
        ensures { result ≡ entries.items }
    {
        Peers { entries }
    }

    /// The peers, oldest first, and what holds of them.
    pub fn as_slice(&self) -> &[Peer]
        ensures value { result.now ≡ self.now }
        ensures kept { ArePeers self.now }
    {
        self.entries.as_slice()
    }

    /// The ids that are remembered of the peer of this name, rising. There are none of a peer that is not remembered.
    pub fn heads_of(&self, name: &[u8; 32]) -> &[UpdateId]
        ensures value { result.now ≡ heads_under self.now name.now }
        ensures few { length result.now ≤ MAX_HEADS }
        ensures rising { IsStrictlySortedBy id_cmp result.now }
    {
        match peer_named(self.entries.as_slice(), name) {
            Some(peer) => peer.heads.as_slice(),
            None => &[],
        }
    }

    /// Remembers the least 4,096 of these ids under a name, in the place of what was remembered under it, and as the
    /// newest. Where there are 256 others, the one that was remembered longest ago gives way. Where memory runs out,
    /// nothing changes.
    pub fn remember(
        &mut self,
        alloc: Global,
        name: [u8; 32],
        ids: &[UpdateId],
    ) -> Result<(), AllocError>
        ensures remembered { OnOk result (Remembers self.old name ids.now self.new) }
        ensures same { OnErr result (self.new ≡ self.old) }
    {
        let heads = IdList::from_vec(least_of(alloc, ids)?);
        are_ids(heads.as_slice());
        self.entries.reserve(1)?;
        make_room(&mut self.entries, name.as_slice());
        self.entries.push(Peer { name, heads })?;
        Ok(())
    }

    /// The bytes that are kept of it, which [`crate::read_peers`] reads again.
    pub fn payload(&self, alloc: Global) -> Result<Vec<u8>, AllocError>
        ensures bytes { IfOk result (λ bytes. Spells self.now bytes.items) }
        ensures short { IfOk result (λ bytes. length bytes.items < 2 ^ 32) }
    {
        let mut out = Vec::new(alloc);
        out.extend_from_slice(&(self.entries.len() as u16).to_be_bytes())?;
        put_peers(&mut out, self.entries.as_slice())?;
        Ok(out)
    }
}

/// The peer of this name.
fn peer_named<'a>(peers: &'a [Peer], name: &[u8]) -> Option<&'a Peer>
    ensures { option_copied result ≡ find (has_name name.now) peers.now }
{
    peers.iter().find(|peer| is_named(peer, name))
}

/// Takes the peer of this name out, and the oldest where there is no room for one more.
fn make_room(peers: &mut Vec<Peer>, name: &[u8])
    ensures rest { peers.new.items ≡ with_room (others name.now peers.old.items) }
    ensures len { vec_len peers.new ≤ vec_len peers.old }
    ensures capacity { vec_capacity peers.new ≡ vec_capacity peers.old }
{
    forget(peers, name);
    if peers.len() >= usize::from(MAX_PEERS) {
        peers.remove(0);
    }
}

/// Takes the peer of this name out.
fn forget(peers: &mut Vec<Peer>, name: &[u8])
    ensures rest { peers.new.items ≡ others name.now peers.old.items }
    ensures len { vec_len peers.new ≤ vec_len peers.old }
    ensures capacity { vec_capacity peers.new ≡ vec_capacity peers.old }
{
    peers.retain(|peer| !is_named(peer, name));
}

/// Whether it is the peer of this name.
pub(crate) fn is_named(peer: &Peer, name: &[u8]) -> bool
    ensures { result ≡ has_name name.now peer.now }
{
    peer.name.as_slice() == name
}

/// What holds of ids by their type.
fn are_ids(ids: &[UpdateId])
    ensures { AreIds ids.now }
{
    for id in ids {
        is_id(*id);
    }
}

/// What holds of an id by its type.
fn is_id(_id: UpdateId)
    ensures { length _id.0 ≡ 32 }
{}
