//! The order of updates in a picture.

ghost use Rattle.std.specs.Prelude.{◌≡◌, IfOk};
ghost use Rattle.graph_drawing.specs.Depths.{AreInOrder, nodes_of, rank, rank_cmp};

use crate::depths::place_all;
use crate::placed::Placed;
use hash_graph::Graph;
use std::alloc::{AllocError, Global};
use std::cmp::Ordering;
use table_model::arrivals_are_closed;
use update_check::Checked;

/// The members of a graph in order of depth and id.
pub fn place_in_order(alloc: Global, graph: &Graph<Checked>) -> Result<Vec<Placed>, AllocError>
    ensures { IfOk result (λ placed. AreInOrder (nodes_of graph.now) placed.items) }
{
    arrivals_are_closed();
    graph.len();
    let mut placed = place_all(alloc, graph)?;
    placed.sort_unstable_by(|a, b| rank_cmp(a, b));
    Ok(placed)
}

/// The order of two updates.
fn rank_cmp(a: &Placed, b: &Placed) -> Ordering
    ensures { result ≡ rank_cmp (rank a.now) (rank b.now) }
{
    a.depth.cmp(&b.depth).then(a.node.id.cmp(&b.node.id))
}
