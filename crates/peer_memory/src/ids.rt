//! Lists of ids that rise.

ghost use Rattle.std.specs.Prelude.{◌≡◌, IfOk, take};
ghost use Rattle.std.specs.BTreeSet.{keys};
ghost use Rattle.std.specs.List.Sorted.{IsStrictlySortedBy};
ghost use Rattle.session_rules.specs.Steps.{AreLeast};
ghost use Rattle.update_model.specs.declared.update_id.UpdateId.{UpdateId as Id};
ghost use Rattle.update_model.specs.Entry.{id_cmp};
ghost use Rattle.update_model.specs.Graph.{has};

use crate::MAX_HEADS;
use std::alloc::{AllocError, Global};
use std::collections::BTreeSet;
use update_model::UpdateId;

/// The least of these ids, each once, as many as are remembered of a peer.
pub(crate) fn least_of(alloc: Global, ids: &[UpdateId]) -> Result<Vec<UpdateId>, AllocError>
    ensures { IfOk result (λ least. AreLeast (has ids.now) MAX_HEADS least.items) }
{
    let all = set_of(alloc, ids)?;
    first_of(alloc, &all)
}

/// The set of these ids.
fn set_of(alloc: Global, ids: &[UpdateId]) -> Result<BTreeSet<UpdateId>, AllocError>
    ensures exact { IfOk result (λ set. (q : Id) → has (keys set) q ≡ has ids.now q) }
    ensures rising { IfOk result (λ set. IsStrictlySortedBy id_cmp (keys set)) }
{
    let mut set = BTreeSet::new(alloc);
    for id in ids {
        set.insert(*id)?;
    }
    Ok(set)
}

/// The first ids of a set, as many as are remembered of a peer.
fn first_of(alloc: Global, all: &BTreeSet<UpdateId>) -> Result<Vec<UpdateId>, AllocError>
    ensures { IfOk result (λ ids. ids.items ≡ take MAX_HEADS (keys all.now)) }
{
    let mut ids = Vec::new(alloc);
    for id in all {
        if ids.len() >= MAX_HEADS as usize {
            return Ok(ids);
        }
        ids.push(*id)?;
    }
    Ok(ids)
}
