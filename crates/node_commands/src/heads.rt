ghost use Rattle.std.specs.Prelude.{map, IfOk};
ghost use Rattle.update_model.specs.Graph.{AreHeads};
ghost use Rattle.head_set.specs.Present.{present};

use hash_graph::Graph;
use head_set::{Heads, new_ids_were_no_heads, present_heads_are_heads};
use std::alloc::{AllocError, Global};
use update_model::Member;

/// The heads of a graph: the ids of the members that no member names.
pub fn heads_of<M: Member>(alloc: Global, graph: &Graph<M>) -> Result<Heads, AllocError>
    ensures { IfOk result (λ heads. AreHeads (map M.entry graph.now) (present heads)) }
{
    new_ids_were_no_heads();
    present_heads_are_heads();
    let mut heads = Heads::new(alloc);
    for position in 0..graph.len() {
        let member = graph.at(position);
        heads.add(member.id(), member.preds())?;
    }
    Ok(heads)
}
