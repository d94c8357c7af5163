//! What an end asks for.

ghost use Rattle.std.specs.Prelude.{◌≡◌, ◌||◌, true, map, find, [], IfOk};
ghost use Rattle.std.specs.BTreeMap.{keys as keys_in};
ghost use Rattle.std.specs.BTreeSet.{keys};
ghost use Rattle.session_rules.specs.declared.limits.TheConstants.{MAX_NEEDS};
ghost use Rattle.session_rules.specs.Steps.{is_wanted, AreLeast};
ghost use Rattle.update_codec.specs.Parts.{entry_of};
ghost use Rattle.update_model.specs.Graph.{has, names};
ghost use Rattle.sync_session.specs.Wants.{is_open, AreSought, StaySought};

use crate::lookup::is_among;
use crate::pending::Pending;
use crate::sought::Sought;
use session_rules::MAX_NEEDS;
use std::alloc::{AllocError, Global};
use std::collections::BTreeSet;
use update_check::Holder;
use update_model::UpdateId;

/// The least ids, as many as a turn asks for, that are heads of the peer's Hello or predecessors of what waits, are
/// neither held nor wait, and were not asked for before.
///
/// They are taken out of what is sought, and with them whatever stands below them there: that is held, waits, was asked
/// for or is named no longer, all for good. So no id is looked at twice.
pub(crate) fn needs<H: Holder>(
    alloc: Global,
    holder: &H,
    heads: &[UpdateId],
    pending: &Pending,
    asked: &BTreeSet<UpdateId>,
    sought: &mut Sought,
) -> Result<Vec<UpdateId>, AllocError>
    requires settled { pending.now.gathered ≡ [] }
    requires sought { AreSought heads.now (map entry_of (H.members holder.now)) pending.now (keys asked.now)
        (keys_in sought.old) }
    ensures least { IfOk result (λ ids. AreLeast (is_wanted heads.now (map entry_of (H.members holder.now))
        (map entry_of pending.now.waiting) (keys asked.now)) MAX_NEEDS ids.items) }
    ensures left { IfOk result (λ ids. StaySought (is_wanted heads.now (map entry_of (H.members holder.now))
        (map entry_of pending.now.waiting) (keys asked.now)) ids.items (keys_in sought.new)) }
{
    sought.len(); // its ids rise
    let mut ids = Vec::new(alloc);
    'least: while ids.len() < MAX_NEEDS as usize {
        let Some((id, namer)) = sought.pop_first() else {
            return Ok(ids);
        };
        if is_open(holder, &id, pending, asked) && is_named(heads, pending, &id, namer) {
            ids.push(id)?;
        }
    }
    Ok(ids)
}

/// Whether an id is neither held nor waits and was not asked for.
fn is_open<H: Holder>(
    holder: &H,
    id: &UpdateId,
    pending: &Pending,
    asked: &BTreeSet<UpdateId>,
) -> bool
    requires { pending.now.gathered ≡ [] }
    ensures { result ≡ is_open (map entry_of (H.members holder.now)) (map entry_of pending.now.waiting) (keys asked.now)
        id.now }
{
    if holder.position(id).is_some() {
        return false;
    }
    if pending.contains(id) {
        return false;
    }
    !asked.contains(id)
}

/// Whether an id is a head, or a predecessor of what waits. The one that named it is looked at first: it still does,
/// unless two updates share an id.
fn is_named(heads: &[UpdateId], pending: &Pending, id: &UpdateId, namer: Option<UpdateId>) -> bool
    ensures { result ≡ (has heads.now id.now || names (map entry_of pending.now.waiting) id.now) }
{
    if is_named_still(heads, pending, id, namer) {
        return true;
    }
    is_among(heads, id) || pending.names(id)
}

/// Whether an id is named by the one that named it.
fn is_named_still(
    heads: &[UpdateId],
    pending: &Pending,
    id: &UpdateId,
    namer: Option<UpdateId>,
) -> bool
    ensures { result ≡ true → (has heads.now id.now || names (map entry_of pending.now.waiting) id.now) ≡ true }
{
    match namer {
        None => heads.binary_search(id).is_ok(),
        Some(namer) => pending.is_named_by(&namer, id),
    }
}

/// The first of these ids that is in the set.
pub(crate) fn first_again(set: &BTreeSet<UpdateId>, ids: &[UpdateId]) -> Option<UpdateId>
    ensures { result ≡ find (has (keys set.now)) ids.now }
{
    for id in ids {
        if set.contains(id) {
            return Some(*id);
        }
    }
    None
}
