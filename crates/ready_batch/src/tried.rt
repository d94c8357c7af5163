ghost use Rattle.std.specs.Prelude.{◌≡◌, IfOk, IfSome, OnErr, false, map, slice_get};
ghost use Rattle.update_model.specs.declared.update_id.UpdateId.{UpdateId};
ghost use Rattle.update_model.specs.Graph.{holds};
ghost use Rattle.hash_graph.specs.Answer.{IsNew, answer_of};
ghost use Rattle.ready_batch.specs.Steps.{IsTried, IsOver};

use crate::AddFault;
use hash_graph::{Added, Graph, Refusal};
use update_model::{Member, UpdateId};

/// What became of a member that was looked at.
#[derive(Drop)]
pub enum Tried<M> {
    /// It was added, and has this id.
    Added(UpdateId),
    /// Its id was held.
    Known,
    /// It lacks a predecessor, and is handed back.
    Lacks {
        /// The member.
        member: M,
        /// The predecessor.
        id: UpdateId,
        /// How many predecessors stand before it, which are held.
        found: usize,
    },
}

/// Adds a member unless a predecessor is not held, of which those before `found` are passed over.
pub fn try_member<M: Member + Drop>(
    graph: &mut Graph<M>,
    member: M,
    found: usize,
) -> Result<Tried<M>, AddFault>
    ensures tells { IfOk result (IsTried M.entry graph.old graph.new member) }
    ensures full { result ≡ Err AddFault.Full → IsOver (map M.entry graph.new) (M.entry member) }
    ensures kept { OnErr result (graph.new ≡ graph.old) }

    // Memory may run out only for a member that would stand last.
    ensures memory { result ≡ Err AddFault.Memory → IsNew (answer_of (map M.entry graph.old) (M.entry member)) }
{
    if let Some(found) = first_lacking(graph, member.preds(), found) {
        let id = member.preds()[found];
        return Ok(Tried::Lacks { member, id, found });
    }
    let id = member.id();
    graph.len(); // it is closed
    match graph.add(member) {
        Ok(Added::New(_)) => Ok(Tried::Added(id)),
        Ok(Added::Known(_)) => Ok(Tried::Known),
        Err(refused) => match refused.why {
            Refusal::Full => Err(AddFault::Full),
            Refusal::Memory => Err(AddFault::Memory),
            Refusal::Lacks(id) => Ok(Tried::Lacks {
                member: refused.member,
                id,
                found: 0,
            }),
        },
    }
}

/// The position of the first of these ids, from a position on, that no member has.
fn first_lacking<M: Member>(graph: &Graph<M>, ids: &[UpdateId], from: usize) -> Option<usize>
    ensures { IfSome result (λ found. (id : UpdateId) × (slice_get ids.now found ≡ Some id)
        × (holds (map M.entry graph.now) id ≡ false)) }
{
    for position in from..ids.len() {
        if graph.position(&ids[position]).is_none() {
            return Some(position);
        }
    }
    None
}
