//! The entries of holders.

ghost use Rattle.std.specs.Prelude.{All, IfOk};
ghost use Rattle.update_check.specs.Signed.{IsChecked};

use crate::signed::{By, rule, signed};
use key_audit::{Doubled, find};
use mem_holder::MemHolder;
use std::alloc::{AllocError, Global};
use std::test::Fail;
use update_check::{Checked, Holder, check};
use update_codec::id_of;
use update_model::{DbRule, UpdateId};

/// Which update: by the key whose own bytes and whose seed are all the first of these, under the index that is the
/// second, with one operation, which deletes a row of the update whose id has 32 times the third, signed with 32
/// times the fourth.
type Made = [u8; 4];

/// The bytes of an update.
fn bytes_of(alloc: Global, made: Made) -> Result<Vec<u8>, AllocError> {
    let [seed, index, row, random] = made;
    let rest = [[0, 0, 0, 1, 2].as_slice(), &[row; 32], &[0, 0]].concat(alloc)?;
    let (bytes, _author) = signed(alloc, [seed, index, random], &rest)?;
    Ok(bytes)
}

/// Updates in the order of arrival, and which two of them each entry names. Which of some ids is the least comes from
/// another implementation of signatures.
type Row<'a> = (&'a [Made], &'a [(usize, usize)]);

const ROWS: &[Row<'static>] = &[
    (&[], &[]),
    // each leaf signs once, or one message twice, or two keys sign under one index
    (&[[1, 0, 1, 0], [1, 1, 2, 0], [1, 2, 3, 0]], &[]),
    (&[[1, 0, 1, 0], [1, 0, 1, 1]], &[]),
    (&[[1, 0, 1, 0], [2, 0, 2, 0]], &[]),
    // two messages under one index, in both orders of arrival
    (&[[1, 0, 1, 0], [1, 0, 2, 0]], &[(1, 0)]),
    (&[[1, 0, 2, 0], [1, 0, 1, 0]], &[(0, 1)]),
    // three
    (&[[1, 0, 1, 0], [1, 0, 2, 0], [1, 0, 3, 0]], &[(1, 0)]),
    (&[[1, 0, 3, 0], [1, 0, 2, 0], [1, 0, 1, 0]], &[(1, 2)]),
    (&[[1, 0, 2, 0], [1, 0, 3, 0], [1, 0, 1, 0]], &[(0, 2)]),
    // two, each signed twice
    (
        &[[1, 0, 1, 0], [1, 0, 1, 1], [1, 0, 2, 0], [1, 0, 2, 1]],
        &[(1, 2)],
    ),
    (
        &[[1, 0, 2, 1], [1, 0, 2, 0], [1, 0, 1, 1], [1, 0, 1, 0]],
        &[(2, 1)],
    ),
    (
        &[[1, 0, 2, 0], [1, 0, 1, 1], [1, 0, 1, 0], [1, 0, 2, 1]],
        &[(1, 0)],
    ),
    // more than one entry: by key and index
    (
        &[
            [1, 31, 1, 0],
            [1, 31, 2, 0],
            [2, 3, 1, 0],
            [1, 5, 1, 0],
            [2, 3, 3, 0],
            [1, 5, 9, 0],
            [1, 6, 1, 0],
        ],
        &[(5, 3), (0, 1), (4, 2)],
    ),
];

/// These updates, which are checked under a rule.
fn checked(alloc: Global, rule: &DbRule, updates: &[Made]) -> Result<Vec<Checked>, Fail>
    ensures { IfOk result (λ batch. All (IsChecked rule.now) batch.items) }
{
    let mut batch = Vec::new(alloc);
    'updates: for made in updates {
        let bytes = bytes_of(alloc, *made)?;
        batch.push(check(alloc, rule, bytes)?)?;
    }
    Ok(batch)
}

/// The entries of a holder of these updates.
fn entries_of(alloc: Global, updates: &[Made]) -> Result<Vec<Doubled>, Fail> {
    let mut holder = MemHolder::new(alloc, rule(alloc), 64, None);
    let batch = checked(alloc, holder.rule(), updates)?;
    holder.commit(alloc, batch)?;
    Ok(find(alloc, &holder)?)
}

/// The ids of these updates.
fn ids_of(alloc: Global, updates: &[Made]) -> Result<Vec<UpdateId>, AllocError> {
    let mut ids = Vec::new(alloc);
    for made in updates {
        ids.push(id_of(&bytes_of(alloc, *made)?))?;
    }
    Ok(ids)
}

/// Whether an entry names the updates at these places, and has the first one's index.
fn names(entry: &Doubled, updates: &[Made], ids: &[UpdateId], pair: (usize, usize)) -> bool {
    let are_named = ids.get(pair.0) == Some(&entry.first) && ids.get(pair.1) == Some(&entry.second);
    match updates.get(pair.0) {
        Some(made) => are_named && entry.index == u32::from(made[1]),
        None => false,
    }
}

/// Whether a holder of the row's updates has the row's entries.
fn has_entries(alloc: Global, row: &Row) -> Result<bool, Fail> {
    let (updates, wanted) = row;
    let ids = ids_of(alloc, updates)?;
    let found = entries_of(alloc, updates)?;
    let mut are_all = found.len() == wanted.len();
    for (entry, pair) in found.iter().zip(wanted.iter()) {
        are_all = are_all && names(entry, updates, &ids, *pair);
    }
    Ok(are_all)
}

#[test]
fn holders_have_their_entries(rt: HostRuntime) -> Result<(), Fail> {
    for row in ROWS {
        assert!(rt; has_entries(rt.alloc(), row)?);
    }
    Ok(())
}
