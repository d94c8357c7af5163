//! How deep each update of a graph lies.

ghost use Rattle.std.specs.Prelude.{◌≡◌, IfOk, max, reverse, unwrap_or};
ghost use Rattle.std.specs.BTreeMap.{get};
ghost use Rattle.update_model.specs.Entry.{id_cmp};
ghost use Rattle.std.specs.List.{fold};
ghost use Rattle.graph_drawing.specs.Depths.{nodes_of, placed_in};

use crate::placed::Placed;
use hash_graph::Graph;
use std::alloc::{AllocError, Global};
use std::collections::BTreeMap;
use update_check::Checked;
use update_model::UpdateId;

/// The members of a graph with their depths, the newest last.
pub(crate) fn place_all(alloc: Global, graph: &Graph<Checked>) -> Result<Vec<Placed>, AllocError>
    ensures { IfOk result (λ placed. placed.items ≡ reverse (placed_in (nodes_of graph.now))) }
{
    let mut depths = BTreeMap::new(alloc);
    let mut placed = Vec::new(alloc);
    for position in 0..graph.len() {
        let node = graph.at(position).node(alloc)?;
        let depth = 1 + greatest_depth(&depths, node.preds.as_slice());
        depths.insert(node.id, depth)?;
        placed.push(Placed { depth, node })?;
    }
    Ok(placed)
}

/// The greatest depth of these, where those that have none lie at 0.
fn greatest_depth(depths: &BTreeMap<UpdateId, u32>, ids: &[UpdateId]) -> u32
    ensures { result ≡ fold (λ depth id. max depth (unwrap_or (get id_cmp depths.now id) 0)) 0 ids.now }
{
    let mut greatest = 0u32;
    for id in ids {
        greatest = greatest.max(depth_of(depths, id));
    }
    greatest
}

/// The depth of this one.
fn depth_of(depths: &BTreeMap<UpdateId, u32>, id: &UpdateId) -> u32
    ensures { result ≡ unwrap_or (get id_cmp depths.now id.now) 0 }
{
    depths.get(id).copied().unwrap_or(0)
}
