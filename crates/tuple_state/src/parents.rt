//! The rows that a row names by `CASCADE`, and the places of rows.

ghost use Rattle.std.specs.Prelude.{◌≡◌, ◌+◌, ◌<◌, ◌^◌, ℕ, Bool, ◌&&◌, ◌++◌, length, nat_lt, option_to_list, true, []};
ghost use Rattle.std.specs.Prelude.{IfNone, IfSome, MatchResult, OnOk, OnErr};
ghost use Rattle.std.specs.List.{list_all};
ghost use Rattle.std.specs.BTreeMap.{get};
ghost use Rattle.update_model.specs.declared.row_name.RowName.{RowName as Name};
ghost use Rattle.table_model.specs.Tables.{name_cmp};
ghost use Rattle.tuple_state.specs.Grouped.{AreGroupsOf};
ghost use Rattle.tuple_state.specs.Kept.{place_of};
ghost use Rattle.tuple_state.specs.Parents.{AreFresh, parent_in};

use crate::Inserted;
use crate::groups::Groups;
use crate::links::Link;
use crate::shape::Shape;
use schema::{Action, Column, ColumnKind};
use std::alloc::{AllocError, Global};
use std::collections::{BTreeMap, BTreeSet};
use update_model::{RowName, Value};

/// The row that a value names by `CASCADE`, if it does.
pub(crate) fn parent_of(column: &Column, value: &Value) -> Option<RowName>
    ensures { result ≡ parent_in column.now.kind value.now }
{
    match (value, column.kind) {
        (
            Value::Row(name),
            ColumnKind::Reference {
                target: _,
                action: Action::Cascade,
            },
        ) => Some(*name),
        _ => None,
    }
}

/// Adds the places of rows that come after others. Where memory runs out, the places are those of the others still.
pub(crate) fn add_places(
    places: &mut BTreeMap<RowName, usize>,
    rows: &[Inserted],
    inserted: &[Inserted],
) -> Result<(), AllocError>
    requires placed { (name : Name) → get name_cmp places.old name ≡ place_of rows.now name }
    requires fresh { AreFresh rows.now inserted.now }
    requires few { length rows.now + length inserted.now < 2 ^ 63 }
    ensures ok { OnOk result ((name : Name) → get name_cmp places.new name ≡ place_of (rows.now ++ inserted.now) name) }
    ensures err { OnErr result ((name : Name) → get name_cmp places.new name ≡ place_of rows.now name) }
{
    for number in 0..inserted.len() {
        if places
            .insert(inserted[number].name, rows.len() + number)
            .is_err()
        {
            remove_places(places, rows, &inserted[..number]);
            return Err(AllocError);
        }
    }
    Ok(())
}

/// Finds the places of rows that come after others, and their groups. Where memory runs out, both are those of the
/// others still.
pub(crate) fn enter(
    alloc: Global,
    places: &mut BTreeMap<RowName, usize>,
    groups: &mut Groups,
    shapes: &[Shape],
    rows: &[Inserted],
    inserted: &[Inserted],
) -> Result<(), AllocError>
    requires placed { (name : Name) → get name_cmp places.old name ≡ place_of rows.now name }
    requires groups { AreGroupsOf shapes.now rows.now groups.old }
    requires fresh { AreFresh rows.now inserted.now }
    requires few { length rows.now + length inserted.now < 2 ^ 63 }
    ensures ok { OnOk result ((name : Name) → get name_cmp places.new name ≡ place_of (rows.now ++ inserted.now) name) }
    ensures err { OnErr result ((name : Name) → get name_cmp places.new name ≡ place_of rows.now name) }
    ensures groups { MatchResult result (λ _. AreGroupsOf shapes.now (rows.now ++ inserted.now) groups.new)
        (λ _. AreGroupsOf shapes.now rows.now groups.new) }
{
    let len = rows.len();
    groups.grow(alloc, shapes, rows, inserted)?;
    match add_places(places, rows, inserted) {
        Ok(_) => Ok(()),
        Err(error) => {
            groups.cut(len);
            Err(error)
        }
    }
}

/// Takes the places of the later rows away.
pub(crate) fn remove_places(
    places: &mut BTreeMap<RowName, usize>,
    rows: &[Inserted],
    taken: &[Inserted],
)
    requires placed { (name : Name) → get name_cmp places.old name ≡ place_of (rows.now ++ taken.now) name }
    requires fresh { AreFresh rows.now taken.now }
    ensures { (name : Name) → get name_cmp places.new name ≡ place_of rows.now name }
{
    for number in 0..taken.len() {
        places.remove(&taken[taken.len() - 1 - number].name);
    }
}

/// Adds the places of links.
pub(crate) fn add_parents(links: &[Link], pending: &mut BTreeSet<usize>) -> Result<(), AllocError>
    ensures { OnOk result ((test : ℕ → Bool)
        → list_all test pending.new.keys ≡ (list_all test pending.old.keys && list_all (λ link. test link.place)
        links.now)) }
{
    for link in links {
        pending.insert(link.place)?;
    }
    Ok(())
}

/// Whether a place comes after all of these.
pub(crate) fn comes_last(places: &BTreeSet<usize>, place: usize) -> bool
    ensures { result ≡ list_all (λ k. nat_lt k place) places.now.keys }
{
    match places.last() {
        Some(last) => *last < place,
        None => true,
    }
}

/// Takes the last of these places out.
pub(crate) fn take_last(places: &mut BTreeSet<usize>) -> Option<usize>
    ensures each { (test : ℕ → Bool) → list_all test (option_to_list result ++ places.new.keys) ≡ list_all test
        places.old.keys }
    ensures last { IfSome result (λ k. list_all (λ q. nat_lt q k) places.new.keys ≡ true) }
    ensures done { IfNone result (places.new.keys ≡ []) }
{
    places.pop_last()
}
