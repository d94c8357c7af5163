//! What is new to whoever has some updates.

ghost use Rattle.std.specs.Prelude.{◌≡◌, ◌≤◌, length, map, take, IfOk};
ghost use Rattle.std.specs.List.{filter_map};
ghost use Rattle.update_model.specs.Graph.{position_of};
ghost use Rattle.update_codec.specs.Parts.{entry_of};
ghost use Rattle.update_check.specs.Holding.{ArePositionsSince};
ghost use Rattle.history.specs.Arrivals.{places_before};

use ancestry::Ancestry;
use hash_graph::Graph;
use std::alloc::{AllocError, Global};
use update_check::Checked;
use update_model::UpdateId;

/// Of the first `below` members the positions of those that are neither among these ids nor ancestors of one, rising.
pub fn positions_since(
    alloc: Global,
    graph: &Graph<Checked>,
    ancestry: &Ancestry,
    below: u32,
    old: &[UpdateId],
) -> Result<Vec<u32>, AllocError>
    requires held { below ≤ length graph.now }
    requires places { ancestry.now ≡ places_before graph.now (length graph.now) }
    ensures { IfOk result (λ positions. ArePositionsSince graph.now below old.now positions.items) }
{
    graph.len(); // it is closed
    ancestry.len(); // predecessors stand earlier
    let places = places_below(alloc, graph, below, old)?;
    let positions = ancestry.since(alloc, below, places.as_slice())?;
    Ok(positions)
}

/// The positions of those of the first `below` members that have these ids.
pub fn places_below(
    alloc: Global,
    graph: &Graph<Checked>,
    below: u32,
    ids: &[UpdateId],
) -> Result<Vec<u32>, AllocError>
    requires { below ≤ length graph.now }
    ensures { IfOk result (λ places. places.items ≡ filter_map (position_of (map entry_of (take below graph.now)))
        ids.now) }
{
    ids.iter()
        .filter_map(|id| place_below(graph, below, id))
        .collect(alloc)
}

/// The position of the member with this id, where it is one of the first `below`.
fn place_below(graph: &Graph<Checked>, below: u32, id: &UpdateId) -> Option<u32>
    requires { below ≤ length graph.now }
    ensures { result ≡ position_of (map entry_of (take below graph.now)) id.now }
{
    match graph.position(id) {
        Some(position) => {
            if position < below {
                Some(position)
            } else {
                None
            }
        }
        None => None,
    }
}
