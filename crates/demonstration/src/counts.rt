//! What a replica of a demonstration holds.

ghost use Rattle.std.specs.Prelude.{IfOk};
ghost use Rattle.demonstration.specs.Demos.{AreCountsOf};
ghost use Rattle.row_check.specs.Checksum.{is_luhn};

use crate::author::Author;
use std::alloc::{AllocError, Global};

/// What the replicas of a demonstration come to.
#[derive(Clone, Copy)]
pub struct DemoCounts {
    /// Their updates.
    pub updates: u64,
    /// The updates that no other comes after.
    pub heads: u64,
    /// The visible rows of the table `list`.
    pub lists: u64,
    /// The visible rows of the table `task`.
    pub tasks: u64,
    /// The updates that count for nothing.
    pub voids: u64,
}

/// The number of the table `list`.
pub(crate) const LIST: u8 = 0;

/// The number of the table `task`.
pub(crate) const TASK: u8 = 1;

/// What an author's replica holds.
pub(crate) fn counts_of(alloc: Global, author: &Author) -> Result<DemoCounts, AllocError>
    ensures { IfOk result (λ counts. AreCountsOf is_luhn author.now.store.history counts) }
{
    let updates = author.store.len();
    let heads = author.store.heads(alloc)?;
    let tables = author.store.tables();
    let lists = tables.rows(alloc, LIST)?;
    let tasks = tables.rows(alloc, TASK)?;
    let voids = tables.voids(alloc)?;
    Ok(DemoCounts {
        updates: u64::from(updates),
        heads: heads.len() as u64,
        lists: lists.as_slice().len() as u64,
        tasks: tasks.as_slice().len() as u64,
        voids: voids.as_slice().len() as u64,
    })
}
