//! What an end sends unasked: its Hello and its burst.

ghost use Rattle.std.specs.Prelude.{◌≡◌, ◌≤◌, ◌<◌, ◌||◌, not, All, map, take, length, filter_map, slice_get, IfOk};
ghost use Rattle.std.specs.BTreeSet.{keys};
ghost use Rattle.std.specs.List.{list_any};
ghost use Rattle.update_model.specs.Graph.{has, AreHeads, IsClosed};
ghost use Rattle.std.specs.List.Sorted.{IsStrictlySortedBy};
ghost use Rattle.bloom_summary.specs.Bloom.{is_member};
ghost use Rattle.session_rules.specs.Burst.{IsBurst};
ghost use Rattle.session_rules.specs.declared.limits.TheConstants.{MAX_NEEDS};
ghost use Rattle.update_codec.specs.Parts.{entry_of, id_of};
ghost use Rattle.update_check.specs.Holding.{at_positions};
ghost use Rattle.update_model.specs.Entry.{id_cmp};
ghost use Rattle.sync_session.specs.Greeting.{IsHelloOver};

use bloom_summary::Summary;
use std::alloc::{AllocError, Global};
use std::collections::BTreeSet;
use sync_frames::Hello;
use update_check::Holder;
use update_model::{ByteList, IdList, UpdateId};

/// The Hello over all that the holder has now, of which these are the heads.
pub(crate) fn own_hello<H: Holder>(
    alloc: Global,
    holder: &H,
    database: [u8; 32],
    node: [u8; 32],
    heads: &[UpdateId],
    old: &[UpdateId],
) -> Result<Hello, AllocError>
    requires heads { AreHeads (map entry_of (H.members holder.now)) heads.now }
    requires few { length old.now ≤ MAX_NEEDS }
    requires rising { IsStrictlySortedBy id_cmp old.now }
    ensures over { IfOk result (IsHelloOver database node old.now (map entry_of (H.members holder.now))) }
    ensures heads { IfOk result (λ own. own.heads ≡ heads.now) }
{
    let positions = holder.since(alloc, holder.len(), old)?;
    let ids = ids_at(alloc, holder, positions.as_slice())?;
    let summary = Summary::of(alloc, ids.as_slice())?;
    Ok(Hello::new(
        database,
        node,
        IdList::from_vec(Vec::from_slice(alloc, heads)?),
        IdList::from_vec(Vec::from_slice(alloc, old)?),
        ByteList::from_vec(Vec::from_slice(alloc, summary.bytes())?),
    ))
}

/// The ids of the updates at these positions.
fn ids_at<H: Holder>(
    alloc: Global,
    holder: &H,
    positions: &[u32],
) -> Result<Vec<UpdateId>, AllocError>
    requires { All (λ p. p < length (H.members holder.now)) positions.now }
    ensures { IfOk result (λ ids. ids.items ≡ map id_of (at_positions (H.members holder.now) positions.now)) }
{
    let mut ids = Vec::new(alloc);
    for position in positions {
        ids.push(holder.id_at(*position))?;
    }
    Ok(ids)
}

/// The positions of the burst for a Hello, over the first so many updates: those that are new to the peer and that its
/// summary lacks, or which stand above such a one.
pub(crate) fn burst<H: Holder>(
    alloc: Global,
    holder: &H,
    below: u32,
    peer: &Hello,
) -> Result<Vec<u32>, AllocError>
    requires within { below ≤ length (H.members holder.now) }
    requires closed { IsClosed (map entry_of (H.members holder.now)) }
    ensures exact { IfOk result (λ positions. IsBurst (take below (map entry_of (H.members holder.now))) peer.now.old
        (is_member peer.now.filter)
        (filter_map (slice_get (map entry_of (H.members holder.now))) positions.items)) }
    ensures within { IfOk result (λ positions. All (λ p. p < length (H.members holder.now)) positions.items) }
{
    let since = holder.since(alloc, below, peer.old.as_slice())?;
    let filter = Summary::from_bytes(alloc, peer.filter.as_slice())?;
    let mut unknown = BTreeSet::new(alloc);
    let mut positions = Vec::new(alloc);
    for position in &since {
        let id = holder.id_at(*position);
        if is_unknown(&filter, &unknown, &id, holder.preds_at(*position)) {
            unknown.insert(id)?;
            positions.push(*position)?;
        }
    }
    Ok(positions)
}

/// Whether an update is new to a peer with this summary: it lacks the id, or one of the predecessors is new to it.
fn is_unknown(
    filter: &Summary,
    unknown: &BTreeSet<UpdateId>,
    id: &UpdateId,
    preds: &[UpdateId],
) -> bool
    ensures { result ≡ (not (is_member filter.now id.now) || list_any (has (keys unknown.now)) preds.now) }
{
    !filter.member(id) || names_one(unknown, preds)
}

/// Whether one of these ids is in the set.
fn names_one(set: &BTreeSet<UpdateId>, ids: &[UpdateId]) -> bool
    ensures { result ≡ list_any (has (keys set.now)) ids.now }
{
    for id in ids {
        if set.contains(id) {
            return true;
        }
    }
    false
}
