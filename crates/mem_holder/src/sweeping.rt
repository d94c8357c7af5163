//! What is new to whoever has some updates.

ghost use Rattle.std.specs.Prelude.{◌≤◌, length, IfOk};
ghost use Rattle.update_check.specs.Holding.{ArePositionsSince};

use crate::id_sets::{has_id, insert_all};
use hash_graph::Graph;
use std::alloc::{AllocError, Global};
use std::collections::BTreeSet;
use update_check::Checked;
use update_model::{Member, UpdateId};

/// Of the first `below` updates the positions of those that are neither among these ids nor ancestors of one, rising.
///
/// It goes from the last of them to the first, since an update is named by later ones alone.
pub(crate) fn since_of(
    alloc: Global,
    graph: &Graph<Checked>,
    below: u32,
    old: &[UpdateId],
) -> Result<Vec<u32>, AllocError>
    requires { below ≤ length graph.now }
    ensures { IfOk result (λ positions. ArePositionsSince graph.now below old.now positions.items) }
{
    graph.len(); // it is closed
    let mut behind = BTreeSet::new(alloc);
    insert_all(&mut behind, old)?;
    let mut positions = Vec::new(alloc);
    let mut position = below;
    'positions: while position > 0 {
        position -= 1;
        let update = graph.at(position);
        if has_id(&behind, &update.id()) {
            insert_all(&mut behind, update.preds())?;
        } else {
            positions.push(position)?;
        }
    }
    positions.reverse();
    Ok(positions)
}
