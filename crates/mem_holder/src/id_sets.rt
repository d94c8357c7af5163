//! Sets of ids, and the heads of a graph by them.

ghost use Rattle.std.specs.Prelude.{◌≡◌, ◌||◌, IfOk, OnOk, map};
ghost use Rattle.std.specs.BTreeSet.{keys};
ghost use Rattle.update_model.specs.declared.update_id.UpdateId.{UpdateId as Id};
ghost use Rattle.update_model.specs.Graph.{AreHeads, has, names};
ghost use Rattle.update_codec.specs.Parts.{entry_of};

use hash_graph::Graph;
use std::alloc::{AllocError, Global};
use std::collections::BTreeSet;
use update_check::Checked;
use update_model::{Member, UpdateId};

/// Takes these ids into the set.
pub(crate) fn insert_all(set: &mut BTreeSet<UpdateId>, ids: &[UpdateId]) -> Result<(), AllocError>
    ensures { OnOk result ((id : Id) → has (keys set.new) id ≡ (has (keys set.old) id || has ids.now id)) }
{
    for id in ids {
        set.insert(*id)?;
    }
    Ok(())
}

/// Whether an id is in the set.
pub(crate) fn has_id(set: &BTreeSet<UpdateId>, id: &UpdateId) -> bool
    ensures { result ≡ has (keys set.now) id.now }
{
    set.contains(id)
}

/// The ids that updates of a graph name as predecessors.
fn named_ids(alloc: Global, graph: &Graph<Checked>) -> Result<BTreeSet<UpdateId>, AllocError>
    ensures { IfOk result (λ named. (id : Id) → has (keys named) id ≡ names (map entry_of graph.now) id) }
{
    let mut named = BTreeSet::new(alloc);
    for position in 0..graph.len() {
        insert_all(&mut named, graph.at(position).preds())?;
    }
    Ok(named)
}

/// The ids of the updates that no update names, rising.
pub(crate) fn heads_of(alloc: Global, graph: &Graph<Checked>) -> Result<Vec<UpdateId>, AllocError>
    ensures { IfOk result (λ heads. AreHeads (map entry_of graph.now) heads.items) }
{
    let named = named_ids(alloc, graph)?;
    let mut heads = BTreeSet::new(alloc);
    for position in 0..graph.len() {
        let id = graph.at(position).id();
        if !has_id(&named, &id) {
            heads.insert(id)?;
        }
    }
    heads.into_iter().collect(alloc)
}
