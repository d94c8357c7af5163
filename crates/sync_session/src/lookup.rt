//! What a session asks its holder, by the holder's list and the first part of it that is the start set; and whether an
//! id is among others.

ghost use Rattle.std.specs.Prelude.{◌≡◌, ◌<◌, ◌≤◌, All, map, take, length, not, find, filter_map, slice_get, IfOk};
ghost use Rattle.std.specs.List.{list_all};
ghost use Rattle.session_rules.specs.Steps.{answers};
ghost use Rattle.update_codec.specs.Parts.{entry_of};
ghost use Rattle.update_model.specs.Graph.{has, holds, position_of};

use std::alloc::{AllocError, Global};
use update_check::Holder;
use update_model::UpdateId;

/// Whether the holder has each of these.
pub(crate) fn has_all<H: Holder>(holder: &H, ids: &[UpdateId]) -> bool
    ensures { result ≡ list_all (holds (map entry_of (H.members holder.now))) ids.now }
{
    for id in ids {
        if holder.position(id).is_none() {
            return false;
        }
    }
    true
}

/// The position of the update with this id, if it is among the first so many.
fn position_below<H: Holder>(holder: &H, below: u32, id: &UpdateId) -> Option<u32>
    ensures { result ≡ position_of (take below (map entry_of (H.members holder.now))) id.now }
{
    match holder.position(id) {
        Some(position) if position < below => Some(position),
        _ => None,
    }
}

/// The first of these ids that none of the first so many updates has.
pub(crate) fn first_unknown<H: Holder>(holder: &H, below: u32, ids: &[UpdateId]) -> Option<UpdateId>
    ensures { result ≡ find (λ id. not (holds (take below (map entry_of (H.members holder.now))) id)) ids.now }
{
    for id in ids {
        if position_below(holder, below, id).is_none() {
            return Some(*id);
        }
    }
    None
}

/// The positions of the updates with these ids among the first so many, in the order of the ids. Other ids are passed
/// over.
pub(crate) fn positions_of<H: Holder>(
    alloc: Global,
    holder: &H,
    below: u32,
    ids: &[UpdateId],
) -> Result<Vec<u32>, AllocError>
    ensures exact { IfOk result (λ positions. filter_map (slice_get (map entry_of (H.members holder.now)))
        positions.items
        ≡ answers (take below (map entry_of (H.members holder.now))) ids.now) }
    ensures within { IfOk result (λ positions. All (λ p. p < length (H.members holder.now)) positions.items) }
{
    let mut positions = Vec::new(alloc);
    for id in ids {
        if let Some(position) = position_below(holder, below, id) {
            positions.push(position)?;
        }
    }
    Ok(positions)
}

/// Whether an id is among these.
pub(crate) fn is_among(ids: &[UpdateId], id: &UpdateId) -> bool
    ensures { result ≡ has ids.now id.now }
{
    for one in ids {
        if one == id {
            return true;
        }
    }
    false
}
