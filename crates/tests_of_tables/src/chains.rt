//! A chain of rows, each of which names the one before it.

use crate::kept::tables_of;
use crate::updates::{secret, signed};
use hash_graph::Graph;
use std::alloc::{AllocError, Global};
use std::test::Fail;
use tuple_state::Tables;
use update_check::Checked;
use update_model::{Member, RowName, UpdateId};

/// A row goes with the row that it names.
const CHAIN: &[u8] =
    b"DATABASE chain\nTABLE n DELETABLE\nCOLUMN a INT 0 9\nREF up n CASCADE NULL\nSAMPLE 1\n";

/// How many rows an update inserts. There are 32 updates.
const ROWS: u16 = 125;

/// An insertion of a row of the value 5, without the row that it names.
const FRONT: &[u8] = b"\x01\0\x02\x01\0\0\0\0\0\0\0\x05";

/// Operations that insert rows in a chain, the first of which names the last row of this update, if any.
fn insertions(alloc: Global, before: Option<UpdateId>) -> Result<Vec<u8>, AllocError> {
    let last = (ROWS - 1).to_be_bytes();
    let mut bytes = match before {
        Some(id) => [FRONT, &[4], id.0.as_slice(), &last].concat(alloc)?,
        None => [FRONT, &[0]].concat(alloc)?,
    };
    for number in 1..ROWS {
        bytes.extend_from_slice(FRONT)?;
        bytes.push(5)?;
        bytes.extend_from_slice(&(number - 1).to_be_bytes())?;
    }
    Ok(bytes)
}

/// Adds updates in a chain, and answers the id of the last one.
fn grow(alloc: Global, graph: &mut Graph<Checked>) -> Result<Option<UpdateId>, Fail> {
    let secret = secret(alloc)?;
    let mut last = None;
    for leaf in 0..secret.leaf_count() {
        let rows = insertions(alloc, last)?;
        let update = signed(alloc, &secret, leaf, last, ROWS, &rows)?;
        last = Some(update.id());
        if graph.add(update).is_err() {
            return Ok(None);
        }
    }
    Ok(last)
}

/// How often of 10,000,000 times the last row of this update is visible.
fn times_visible(tables: &Tables, update: UpdateId) -> u32 {
    let row = RowName {
        update,
        index: ROWS - 1,
    };
    let mut count = 0u32;
    for _ in 0..10_000_000u32 {
        count = count.saturating_add(u32::from(tables.visible(&row)));
    }
    count
}

/// How often the last row of a chain is visible, and how many updates tables have, if any.
fn told(alloc: Global, graph: &Graph<Checked>, last: UpdateId) -> Option<(u32, u32)> {
    let tables = tables_of(alloc, CHAIN, graph)?;
    Some((times_visible(&tables, last), tables.len()))
}

#[test]
fn the_end_of_a_chain_is_told_at_once(rt: HostRuntime) -> Result<(), Fail> {
    let mut graph = Graph::new(rt.alloc());
    let Some(last) = grow(rt.alloc(), &mut graph)? else {
        panic!(rt; "no chain")
    };
    assert_eq!(rt; told(rt.alloc(), &graph, last), Some((10_000_000, 32)));
    Ok(())
}
