//! What hides a row: updates that delete it or a row that it hangs on, and a lesser row of the same value.

use crate::kept::tables_of;
use crate::updates::{secret, signed};
use hash_graph::Graph;
use lms_tree::Secret;
use std::alloc::{AllocError, Global};
use std::test::Fail;
use tuple_state::Tables;
use update_check::Checked;
use update_model::{Member, RowName, UpdateId};

/// Rows of the second table go with the row of the first that they name.
const GROUPS: &[u8] =
    b"DATABASE d\nTABLE g DELETABLE\nCOLUMN a INT 0 9\nSAMPLE 1\nTABLE t\nCOLUMN a INT 0 9\nREF g g CASCADE\nSAMPLE 1\n";

/// Of the rows of one value the least is shown.
const NUMBERS: &[u8] =
    b"DATABASE d\nTABLE n DELETABLE\nCOLUMN a INT 0 9\nUNIQUE a KEEP LEAST\nSAMPLE 1\n";

/// An update of one operation: the place of the update before it, the bytes that the operation begins with, and the
/// place of the update whose first row it names.
type Plan = (Option<usize>, &'static [u8], Option<usize>);

/// Inserts a row of the first table, of the value 5.
const INSERTION: &[u8] = b"\x01\0\x01\x01\0\0\0\0\0\0\0\x05";

/// Inserts a row of the second table, which names another.
const CHILD: &[u8] = b"\x01\x01\x02\x01\0\0\0\0\0\0\0\x05\x04";

/// Deletes a row.
const DELETION: &[u8] = b"\x02";

/// The id of the update at this place, if any.
fn id_at(updates: &[Checked], place: Option<usize>) -> Option<UpdateId> {
    match updates.get(place?) {
        Some(update) => Some(update.id()),
        None => None,
    }
}

/// The update of a plan, behind these.
fn planned(
    alloc: Global,
    secret: &Secret,
    updates: &[Checked],
    plan: &Plan,
) -> Result<Checked, Fail> {
    let (before, front, named) = plan;
    let operation = match id_at(updates, *named) {
        Some(id) => [*front, id.0.as_slice(), &[0, 0]].concat(alloc)?,
        None => Vec::from_slice(alloc, front)?,
    };
    let leaf = (updates.len() % 32) as u32;
    signed(alloc, secret, leaf, id_at(updates, *before), 1, &operation)
}

/// The updates of these plans.
fn updates_of(alloc: Global, plans: &[Plan]) -> Result<Vec<Checked>, Fail> {
    let secret = secret(alloc)?;
    let mut updates = Vec::new(alloc);
    for plan in plans {
        let update = planned(alloc, &secret, &updates, plan)?;
        updates.push(update)?;
    }
    Ok(updates)
}

/// Adds the updates at these places to a graph, in this order, and answers whether it did.
fn arrive(
    alloc: Global,
    graph: &mut Graph<Checked>,
    updates: &[Checked],
    order: &[usize],
) -> Result<bool, AllocError> {
    for place in order {
        let Some(update) = updates.get(*place) else {
            return Ok(false);
        };
        if graph.add(update.copy(alloc)?).is_err() {
            return Ok(false);
        }
    }
    Ok(true)
}

/// Of the first row of the update at this place: whether it is visible, and for how many causes it is absent.
type Kept = (usize, bool, u32);

/// Whether tables keep this of a row that was inserted.
fn is_kept(tables: &Tables, updates: &[Checked], kept: &Kept) -> bool {
    let Some(update) = updates.get(kept.0) else {
        return false;
    };
    let row = RowName {
        update: update.id(),
        index: 0,
    };
    tables.has_inserted(&row) && tables.visible(&row) == kept.1 && *tables.causes(&row) == kept.2
}

/// Whether tables keep this of rows, and so many updates do nothing.
fn are_kept(
    alloc: Global,
    tables: &Tables,
    updates: &[Checked],
    voids: usize,
    rows: &[Kept],
) -> Result<bool, AllocError> {
    let mut are_all = tables.voids(alloc)?.as_slice().len() == voids;
    for kept in rows {
        are_all = are_all && is_kept(tables, updates, kept);
    }
    Ok(are_all)
}

/// An order of arrival, how many updates do nothing then, and what is kept of two rows.
type Row = (&'static [usize], usize, [Kept; 2]);

/// Whether the tables of a schema keep what the row says.
fn is_so(alloc: Global, text: &[u8], updates: &[Checked], row: &Row) -> Result<bool, AllocError> {
    let (order, voids, rows) = row;
    let mut graph = Graph::new(alloc);
    if !arrive(alloc, &mut graph, updates, order)? {
        return Ok(false);
    }
    match tables_of(alloc, text, &graph) {
        Some(tables) => are_kept(alloc, &tables, updates, *voids, rows),
        None => Ok(false),
    }
}

/// An update that inserts a row; and three that come after it and name that row: one inserts a row of it, and two
/// delete it.
const DELETED_TWICE: &[Plan] = &[
    (None, INSERTION, None),
    (Some(0), CHILD, Some(0)),
    (Some(0), DELETION, Some(0)),
    (Some(0), DELETION, Some(0)),
];

const ORDERS: &[Row] = &[
    (&[0, 1, 2, 3], 0, [(0, false, 2), (1, false, 1)]),
    (&[0, 1, 3, 2], 0, [(0, false, 2), (1, false, 1)]),
    (&[0, 2, 1, 3], 0, [(0, false, 2), (1, false, 1)]),
    (&[0, 2, 3, 1], 0, [(0, false, 2), (1, false, 1)]),
    (&[0, 3, 1, 2], 0, [(0, false, 2), (1, false, 1)]),
    (&[0, 3, 2, 1], 0, [(0, false, 2), (1, false, 1)]),
];

#[test]
fn causes_are_counted_in_each_order(rt: HostRuntime) -> Result<(), Fail> {
    let updates = updates_of(rt.alloc(), DELETED_TWICE)?;
    for row in ORDERS {
        assert!(rt; is_so(rt.alloc(), GROUPS, &updates, row)?);
    }
    Ok(())
}

/// Two updates that insert one value apart, of which the first or the second has the lesser id; one behind that of the
/// greater id, which inserts it again; and one that deletes the row of the lesser.
const LEAST: [&[Plan]; 2] = [
    &[
        (None, INSERTION, None),
        (None, INSERTION, None),
        (Some(1), INSERTION, None),
        (Some(0), DELETION, Some(0)),
    ],
    &[
        (None, INSERTION, None),
        (None, INSERTION, None),
        (Some(0), INSERTION, None),
        (Some(1), DELETION, Some(1)),
    ],
];

/// What is kept where the first has the lesser id, and where the second has.
const KEPT: [&[Row]; 2] = [
    &[
        (&[0, 1], 0, [(0, true, 0), (1, false, 1)]),
        (&[1, 0], 0, [(0, true, 0), (1, false, 1)]),
        (&[0, 1, 2, 3], 1, [(0, false, 1), (1, true, 0)]),
        (&[1, 0, 2, 3], 1, [(0, false, 1), (1, true, 0)]),
    ],
    &[
        (&[0, 1], 0, [(0, false, 1), (1, true, 0)]),
        (&[1, 0], 0, [(0, false, 1), (1, true, 0)]),
        (&[0, 1, 2, 3], 1, [(0, true, 0), (1, false, 1)]),
        (&[1, 0, 2, 3], 1, [(0, true, 0), (1, false, 1)]),
    ],
];

#[test]
fn the_least_is_shown_whichever_arrives_first(rt: HostRuntime) -> Result<(), Fail> {
    let roots = updates_of(rt.alloc(), &LEAST[0][..2])?;
    let least = usize::from(id_at(&roots, Some(1)) < id_at(&roots, Some(0)));
    let updates = updates_of(rt.alloc(), LEAST[least])?;
    for row in KEPT[least] {
        assert!(rt; is_so(rt.alloc(), NUMBERS, &updates, row)?);
    }
    Ok(())
}
