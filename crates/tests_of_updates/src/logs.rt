//! What crashes and faults leave of an append of two updates.

ghost use Rattle.std.specs.Prelude.{◌≡◌, false, IfOk, length};
ghost use Rattle.bec_disk.specs.Disk.{IsSettled};
ghost use Rattle.bec_disk.specs.Replay.{state_of};
ghost use Rattle.update_check.specs.Members.{AreMembers};
ghost use Rattle.update_log.specs.Log.{IsLogOf};

use crate::signed::{PLAIN, rule, signed};
use bec_disk::{Disk, MemDisk};
use hash_graph::Graph;
use record_check::OneThread;
use std::alloc::{AllocError, Global};
use std::test::Fail;
use update_check::Checked;
use update_log::Log;
use update_model::DbRule;

/// No predecessors, and one operation, which deletes a row.
const DELETING: &[u8] = b"\0\0\0\x01\x0266666666666666666666666666666666\0\x07";

/// How many bytes the first update has.
const FIRST: u64 = 4557;

/// How many bytes both updates have together.
const BOTH: u64 = 9149;

/// The records of two updates: the first has 4,561 bytes, the second 4,596.
fn two_records(alloc: Global) -> Result<Vec<u8>, AllocError> {
    let (one, _) = signed(alloc, [1, 0, 0], PLAIN)?;
    let (two, _) = signed(alloc, [2, 0, 0], DELETING)?;
    [&[0, 0, 17, 205], one.as_slice(), &[0, 0, 17, 240], &two].concat(alloc)
}

/// Opens what a crash leaves of a disk.
fn opened(
    alloc: Global,
    rule: &DbRule,
    disk: &MemDisk,
    choice: u64,
) -> Result<(Log<MemDisk>, Graph<Checked>), Fail>
    ensures { IfOk result (λ opened. AreMembers rule.now opened.1) }
{
    match Log::open_log(&OneThread, alloc, disk.restart(choice)?, rule) {
        Ok(opened) => Ok(opened),
        Err(fault) => Err(fault.why)?,
    }
}

/// How many bytes of updates an opening finds after a crash, and how many bytes it cuts.
fn found(alloc: Global, rule: &DbRule, disk: &MemDisk, choice: u64) -> Result<(u64, u64), Fail> {
    let (log, graph) = opened(alloc, rule, disk, choice)?;
    Ok((graph.byte_len(), log.dropped()))
}

/// How many bytes of updates three crashes leave: what was synced, what is read, and a mixture as long as what was
/// synced.
fn left_on(alloc: Global, rule: &DbRule, disk: &MemDisk) -> Result<[u64; 3], Fail> {
    let (synced, _) = found(alloc, rule, disk, 0)?;
    let (read, _) = found(alloc, rule, disk, 1)?;
    let (mixed, _) = found(alloc, rule, disk, 2)?;
    Ok([synced, read, mixed])
}

/// The two updates.
fn two_updates(alloc: Global, rule: &DbRule) -> Result<Graph<Checked>, Fail>
    ensures { IfOk result (λ graph. AreMembers rule.now graph) }
{
    let mut disk = MemDisk::new(alloc);
    disk.write_at(0, &two_records(alloc)?)?;
    let (_log, graph) = opened(alloc, rule, &disk, 1)?;
    Ok(graph)
}

/// Appends a batch to an empty log, and once more after a repair where that failed and it `repairs`, and answers
/// whether it was done.
fn append_to(
    log: &mut Log<MemDisk>,
    held: &Graph<Checked>,
    rule: &DbRule,
    batch: &Graph<Checked>,
    repairs: bool,
) -> bool
    requires sure { log.old.is_unsure ≡ false }
    requires log { IsLogOf held.now log.old }
    requires empty { length held.now ≡ 0 }
    requires members { AreMembers rule.now batch.now }
{
    log.append(batch.tail(0)).is_ok()
        || (repairs && log.repair().is_ok() && log.append(batch.tail(0)).is_ok())
}

/// Opens the log of an empty disk and appends a batch as [`append_to`] does.
fn append_on(
    alloc: Global,
    rule: &DbRule,
    disk: MemDisk,
    batch: &Graph<Checked>,
    repairs: bool,
) -> (bool, MemDisk)
    requires settled { IsSettled (state_of disk) }
    requires members { AreMembers rule.now batch.now }
{
    match Log::open_log(&OneThread, alloc, disk, rule) {
        Ok((mut log, held)) => {
            let done = held.is_empty() && append_to(&mut log, &held, rule, batch, repairs);
            (done, log.into_disk())
        }
        Err(fault) => (false, fault.disk),
    }
}

/// Whether a disk stops at its call of this number, or fails at it alone.
#[derive(Clone, Copy)]
enum At {
    Stops(u32),
    Fails(u32),
}

use At::{Fails, Stops};

/// A disk that does so.
fn disk_at(alloc: Global, at: At) -> Result<MemDisk, AllocError>
    ensures { IfOk result (λ disk. IsSettled (state_of disk)) }
{
    match at {
        Stops(call) => Ok(MemDisk::stopping(alloc, call.saturating_sub(1))),
        Fails(call) => MemDisk::failing(alloc, &[call]),
    }
}

/// Where a disk fails, whether an append to its log is repaired, whether it is done, and how many bytes of updates
/// three crashes leave.
type Row = (At, bool, bool, [u64; 3]);

// Opening the log of an empty disk takes one call, and appending two updates a write and a sync.
const ROWS: &[Row] = &[
    (Stops(1), false, false, [0, 0, 0]),
    (Fails(1), false, false, [0, 0, 0]),
    (Stops(2), false, false, [0, 0, 0]),
    (Fails(2), false, false, [0, 0, 0]),
    (Stops(3), false, false, [0, BOTH, 0]),
    (Fails(3), false, false, [0, BOTH, 0]),
    (Stops(4), false, true, [BOTH, BOTH, BOTH]),
    (Fails(4), false, true, [BOTH, BOTH, BOTH]),
    (Fails(2), true, true, [BOTH, BOTH, BOTH]),
    (Fails(3), true, true, [BOTH, BOTH, BOTH]),
];

/// Whether an append of a batch is left as the row says.
fn is_left(alloc: Global, rule: &DbRule, batch: &Graph<Checked>, row: &Row) -> Result<bool, Fail>
    requires { AreMembers rule.now batch.now }
{
    let (at, repairs, done, left) = row;
    let (appended, disk) = append_on(alloc, rule, disk_at(alloc, *at)?, batch, *repairs);
    Ok(appended == *done && left_on(alloc, rule, &disk)? == *left)
}

#[test]
fn a_crash_leaves_what_was_synced_or_more(rt: HostRuntime) -> Result<(), Fail> {
    let rule = rule(rt.alloc());
    let batch = two_updates(rt.alloc(), &rule)?;
    for row in ROWS {
        assert!(rt; is_left(rt.alloc(), &rule, &batch, row)?);
    }
    Ok(())
}

/// How many bytes of two records there are, and how many bytes of updates an opening finds and cuts off.
const TORN: &[(usize, u64, u64)] = &[
    (0, 0, 0),
    (3, 0, 3),
    (4560, 0, 4560),
    (4561, FIRST, 0),
    (4564, FIRST, 3),
    (9156, FIRST, 4595),
    (9157, BOTH, 0),
];

/// What an opening finds of a disk with these bytes and cuts off, and what the next one does.
fn found_twice(alloc: Global, rule: &DbRule, bytes: &[u8]) -> Result<[(u64, u64); 2], Fail> {
    let mut disk = MemDisk::new(alloc);
    disk.write_at(0, bytes)?;
    let (log, graph) = opened(alloc, rule, &disk, 1)?;
    let once = (graph.byte_len(), log.dropped());
    Ok([once, found(alloc, rule, &log.into_disk(), 0)?])
}

#[test]
fn a_torn_end_is_cut_once(rt: HostRuntime) -> Result<(), Fail> {
    let rule = rule(rt.alloc());
    let records = two_records(rt.alloc())?;
    for (len, held, cut) in TORN {
        let bytes = &records[..records.len().min(*len)];
        assert_eq!(rt;
            found_twice(rt.alloc(), &rule, bytes)?,
            [(*held, *cut), (*held, 0)]
        );
    }
    Ok(())
}
