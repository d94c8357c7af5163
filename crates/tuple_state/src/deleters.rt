//! What links to rows, by the row's place: the updates that delete it, and the rows that name it by `CASCADE`.

ghost use Rattle.std.specs.Prelude.{◌≡◌, ℕ, ◌+◌, ◌<◌, ◌≤◌, ◌++◌, true, Some, is_some, IfOk, MatchResult, length};
ghost use Rattle.std.specs.List.{list_all};
ghost use Rattle.std.specs.BTreeMap.{get};
ghost use Rattle.update_model.specs.declared.row_name.RowName.{RowName as Name};
ghost use Rattle.table_model.specs.Tables.{name_cmp};
ghost use Rattle.tuple_state.specs.declared.dropped.Dropped.{Dropped as Drop};
ghost use Rattle.tuple_state.specs.Kept.{deletes_at, pairs_of};

use crate::Dropped;
use crate::links::{Link, Links};
use std::alloc::{AllocError, Global};
use std::collections::BTreeMap;
use update_model::RowName;

/// No more links are kept than this, so that a count of causes fits 32 bits. No history comes to as many: 131,072
/// updates of 256 operations of 16 columns are no more.
const MAX_LINKS: usize = 536_870_912;

/// The links that an update adds.
#[derive(Drop)]
pub(crate) struct Added {
    /// From the rows that its rows name by `CASCADE`.
    pub(crate) parents: Vec<Link>,
    /// From the rows that it deletes.
    pub(crate) dropped: Vec<Link>,
}

/// Adds so many places, the rows that name others, and the updates that delete rows. After an error nothing has
/// changed.
pub(crate) fn grow_links(
    alloc: Global,
    children: &mut Links,
    deleters: &mut Links,
    places: &BTreeMap<RowName, usize>,
    size: usize,
    more: usize,
    parents: &[Dropped],
    dropped: &[Dropped],
) -> Result<Added, AllocError>
    requires children { children.old.size ≡ size }
    requires deleters { deleters.old.size ≡ size }
    requires few_children { length children.old.links ≤ 536870912 }
    requires few_deleters { length deleters.old.links ≤ 536870912 }
    requires named { list_all (λ (drop : Drop). is_some (get name_cmp places.now drop.name)) parents.now ≡ true }
    requires found { list_all (λ (drop : Drop). is_some (get name_cmp places.now drop.name)) dropped.now ≡ true }
    requires inside { (name : Name) (place : ℕ) → get name_cmp places.now name ≡ Some place → place < size + more }
    ensures children { MatchResult result (λ added. children.new ≡ record {
      size = size + more;
      links = children.old.links ++ added.parents.items;
    }) (λ _. children.new ≡ children.old) }
    ensures deleters { MatchResult result (λ added. deleters.new ≡ record {
      size = size + more;
      links = deleters.old.links ++ added.dropped.items;
    }) (λ _. deleters.new ≡ deleters.old) }
    ensures parents { IfOk result (λ added. pairs_of added.parents.items ≡ deletes_at (get name_cmp places.now)
        parents.now) }
    ensures dropped { IfOk result (λ added. pairs_of added.dropped.items ≡ deletes_at (get name_cmp places.now)
        dropped.now) }
    ensures few_children { length children.new.links ≤ 536870912 }
    ensures few_deleters { length deleters.new.links ≤ 536870912 }
{
    let parents = links_of(alloc, parents, places)?;
    let dropped = links_of(alloc, dropped, places)?;
    let len = children.len();
    if MAX_LINKS - len < parents.len() || MAX_LINKS - deleters.len() < dropped.len() {
        return Err(AllocError);
    }
    children.grow(more, parents.as_slice())?;
    if deleters.grow(more, dropped.as_slice()).is_err() {
        children.cut(size, len);
        return Err(AllocError);
    }
    Ok(Added { parents, dropped })
}

/// For each of these names the place of its row, with the number that comes with the name.
pub(crate) fn links_of(
    alloc: Global,
    dropped: &[Dropped],
    places: &BTreeMap<RowName, usize>,
) -> Result<Vec<Link>, AllocError>
    requires { list_all (λ (drop : Drop). is_some (get name_cmp places.now drop.name)) dropped.now ≡ true }
    ensures { IfOk result (λ links. pairs_of links.items ≡ deletes_at (get name_cmp places.now) dropped.now) }
{
    let mut links = Vec::with_capacity(alloc, dropped.len())?;
    for drop in dropped {
        if let Some(place) = places.get(&drop.name) {
            links.push(Link {
                place: *place,
                number: drop.position,
            })?;
        }
    }
    Ok(links)
}
