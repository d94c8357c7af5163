//! Ids and names in lists, and closed lists.

ghost use Rattle.std.specs.Prelude.{◌≡◌, ◌↔◌, IsTrue, reverse, not, ◌&&◌};
ghost use Rattle.std.specs.List.{list_all};
ghost use Rattle.update_model.specs.Entry.{same_id};
ghost use Rattle.update_model.specs.Graph.{has};
ghost use Rattle.confluence_laws.specs.Confluence.{is_closed};
ghost use Rattle.table_model.specs.Nodes.{holds, IsClosed};
ghost use Rattle.table_model.specs.Visible.{same_row};
ghost use Rattle.confluence_checker.specs.Forms.{is_among};

use update_model::{Node, RowName, UpdateId};

/// Whether two ids are one.
pub(crate) fn same_id(a: &UpdateId, b: &UpdateId) -> bool
    ensures { result ≡ same_id a.now b.now }
{
    a.cmp(b).is_eq()
}

/// Whether two names are one.
pub(crate) fn same_row(a: &RowName, b: &RowName) -> bool
    ensures { result ≡ same_row a.now b.now }
{
    same_id(&a.update, &b.update) && a.index == b.index
}

/// Whether an id is among these.
pub(crate) fn has(ids: &[UpdateId], id: &UpdateId) -> bool
    ensures { result ≡ has ids.now id.now }
{
    ids.iter().any(|other| same_id(id, other))
}

/// Whether a name is among these.
pub(crate) fn is_among(names: &[RowName], name: &RowName) -> bool
    ensures { result ≡ is_among names.now name.now }
{
    names.iter().any(|other| same_row(name, other))
}

/// Whether a node has this id.
fn is_held(nodes: &[Node], id: &UpdateId) -> bool
    ensures { result ≡ holds nodes.now id.now }
{
    nodes.iter().any(|node| same_id(id, &node.id))
}

/// Whether a node of a list in the order of arrival has this id.
fn holds(nodes: &[Node], id: &UpdateId) -> bool
    ensures { result ≡ holds (reverse nodes.now) id.now }
{
    is_held(nodes, id)
}

/// Whether a list in the order of arrival has a node of each id.
fn all_held(nodes: &[Node], ids: &[UpdateId]) -> bool
    ensures { result ≡ list_all (holds (reverse nodes.now)) ids.now }
{
    ids.iter().all(|id| holds(nodes, id))
}

/// Whether a node is new after others, and each of its predecessors is held.
fn is_next(older: &[Node], node: &Node) -> bool
    ensures { result ≡ (not (holds (reverse older.now) node.now.id) && list_all (holds (reverse older.now))
        node.now.preds) }
{
    !holds(older, &node.id) && all_held(older, node.preds.as_slice())
}

/// Whether a list of updates in the order of arrival is closed: ids are distinct, and each predecessor stands earlier.
pub fn is_closed(nodes: &[Node]) -> bool
    ensures { IsTrue result ↔ IsClosed (reverse nodes.now) }
{
    passes_closed(nodes)
}

/// The same, as the test of the definitions.
pub(crate) fn passes_closed(nodes: &[Node]) -> bool
    ensures { result ≡ is_closed (reverse nodes.now) }
{
    let mut closed = true;
    for (older, node) in nodes.iter().enumerate() {
        closed = is_next(&nodes[..older], node) && closed;
    }
    closed
}
