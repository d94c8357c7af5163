//! Adding updates to a graph that may have no more than so many.

ghost use Rattle.std.specs.Prelude.{◌≡◌, ◌≤◌, ℕ, All, IfOk, length, map};
ghost use Rattle.update_model.specs.declared.limits.TheConstants.{MAX_MEMBERS};
ghost use Rattle.update_model.specs.Rule.{RuleData};
ghost use Rattle.update_codec.specs.Parts.{id_of};
ghost use Rattle.update_check.specs.Holding.{Commits};
ghost use Rattle.update_check.specs.Signed.{IsChecked};
ghost use Rattle.mem_holder.specs.Holders.{Grows, limits_of};

use hash_graph::Graph;
use ready_batch::{AddFault, add_ready};
use std::alloc::{AllocError, Global};
use update_check::{Checked, CheckedList, CommitFault, Committed};
use update_model::{IdList, Member};

/// Adds each update of a batch that can be added in some order, where there are then no more than `most`. After a
/// refusal the graph is as it was.
pub(crate) fn add_within(
    alloc: Global,
    graph: &mut Graph<Checked>,
    most: u32,
    batch: Vec<Checked>,
) -> Result<Committed, CommitFault>
    requires few { length graph.old ≤ most }
    requires low { most ≤ MAX_MEMBERS }
    ensures commits { (faults : ℕ) → Commits (limits_of most) graph.old batch.items result faults faults graph.new }
    ensures few { length graph.new ≤ most }
    ensures checked { (rule : RuleData) → All (IsChecked rule) graph.old → All (IsChecked rule) batch.items
        → All (IsChecked rule) graph.new }
{
    let len = graph.len();
    match grow(alloc, graph, most, batch) {
        Ok(committed) => Ok(committed),
        Err(fault) => {
            graph.cut(len);
            Err(fault)
        }
    }
}

/// The same, but that after a refusal some of the batch may stand behind what was held.
fn grow(
    alloc: Global,
    graph: &mut Graph<Checked>,
    most: u32,
    batch: Vec<Checked>,
) -> Result<Committed, CommitFault>
    requires few { length graph.old ≤ most }
    requires low { most ≤ MAX_MEMBERS }
    ensures { Grows most graph.old batch.items result graph.new }
{
    let len = graph.len();
    let waiting = match add_ready(alloc, graph, batch) {
        Ok(waiting) => waiting,
        Err(AddFault::Full) => return Err(CommitFault::Full),
        Err(AddFault::Memory) => return Err(CommitFault::Memory),
    };
    if graph.len() > most {
        return Err(CommitFault::Full);
    }
    match ids_of(alloc, graph.tail(len)) {
        Ok(added) => Ok(Committed {
            added,
            waiting: CheckedList::from_vec(waiting),
        }),
        Err(AllocError) => Err(CommitFault::Memory),
    }
}

/// The ids of updates.
fn ids_of(alloc: Global, updates: &[Checked]) -> Result<IdList, AllocError>
    ensures { IfOk result (λ ids. ids ≡ map id_of updates.now) }
{
    let mut ids = Vec::with_capacity(alloc, updates.len())?;
    for update in updates {
        ids.push(update.id())?;
    }
    Ok(IdList::from_vec(ids))
}
