use Left::{New, Nothing, Old, Other};
use bec_disk::{Disk, Gated, MemDisk, read_gated, write_gated};
use std::alloc::{AllocError, Global};
use std::test::Fail;

const OLD: &[u8] = b"old";

const NEW: &[u8] = b"a newer one";

/// What a part stands for after a crash.
#[derive(Clone, Copy, Debug, PartialEq, Eq)]
enum Left {
    Nothing,
    Old,
    New,
    Other,
}

fn left_on(alloc: Global, disk: &mut MemDisk) -> Left {
    match read_gated(alloc, disk) {
        Ok(Gated::Absent) => Nothing,
        Ok(Gated::Whole(payload)) if payload.as_slice() == OLD => Old,
        Ok(Gated::Whole(payload)) if payload.as_slice() == NEW => New,
        _ => Other,
    }
}

/// Writes the old payload and then the new one, until a call fails, and answers whether none did.
fn write_both(disk: &mut MemDisk) -> bool {
    write_gated(disk, OLD).is_ok() && write_gated(disk, NEW).is_ok()
}

fn after_crash(alloc: Global, disk: &MemDisk, choice: u64) -> Result<Left, AllocError> {
    let mut left = disk.restart(choice)?;
    Ok(left_on(alloc, &mut left))
}

/// After how many calls a disk stops, whether both payloads were written then, and what a crash leaves of what was
/// synced and of what is read.
type Stop = (u32, bool, Left, Left);

// The first payload takes ten calls: len, cut, sync, one byte, sync, length, payload, sync, gate, sync. The second
// takes thirteen: len, read, gate, sync, and those from the cut on.
const STOPS: &[Stop] = &[
    (0, false, Nothing, Nothing),
    (8, false, Nothing, Nothing),
    (9, false, Nothing, Old),
    (10, false, Old, Old),
    (12, false, Old, Old),
    (13, false, Old, Nothing),
    (14, false, Nothing, Nothing),
    (21, false, Nothing, Nothing),
    (22, false, Nothing, New),
    (23, true, New, New),
];

/// What comes of a stop after so many calls.
fn stopped(alloc: Global, calls: u32) -> Result<Stop, AllocError> {
    let mut disk = MemDisk::stopping(alloc, calls);
    let wrote = write_both(&mut disk);
    let synced = after_crash(alloc, &disk, 0)?;
    Ok((calls, wrote, synced, after_crash(alloc, &disk, 1)?))
}

#[test]
fn a_stop_leaves_the_old_the_new_or_nothing(rt: HostRuntime) -> Result<(), Fail> {
    for row in STOPS {
        assert_eq!(rt; stopped(rt.alloc(), row.0)?, *row);
    }
    Ok(())
}

/// Whether a mixture of what was synced and what is read leaves one of the payloads or nothing, after so many calls.
fn is_none_else(alloc: Global, calls: u32, choice: u64) -> Result<bool, AllocError> {
    let mut disk = MemDisk::stopping(alloc, calls);
    write_both(&mut disk);
    Ok(after_crash(alloc, &disk, choice)? != Other)
}

#[test]
fn a_mixture_leaves_nothing_else(rt: HostRuntime) -> Result<(), Fail> {
    for choice in [2, 3, 5, 6, 0x5555_5555_5555_5555, u64::MAX] {
        for calls in 0..24 {
            assert!(rt; is_none_else(rt.alloc(), calls, choice)?);
        }
    }
    Ok(())
}

/// Whether crashes leave the same of both disks.
fn are_alike(alloc: Global, one: &MemDisk, other: &MemDisk) -> Result<bool, AllocError> {
    let synced = after_crash(alloc, one, 0)? == after_crash(alloc, other, 0)?;
    Ok(synced && after_crash(alloc, one, 1)? == after_crash(alloc, other, 1)?)
}

/// Whether a disk whose call of this number fails has what it had before, and a payload is written to it then.
fn is_as_a_stop(alloc: Global, call: u32) -> Result<bool, AllocError> {
    let mut failing = MemDisk::failing(alloc, &[call])?;
    let mut stopping = MemDisk::stopping(alloc, call.saturating_sub(1));
    let wrote = write_both(&mut failing) || write_both(&mut stopping);
    let is_alike = are_alike(alloc, &failing, &stopping)?;
    let is_told = !failing.starved() && failing.unrecorded() == 0;
    let goes_on = write_gated(&mut failing, NEW).is_ok();
    let is_new = after_crash(alloc, &failing, 0)? == New;
    Ok(!wrote && is_alike && is_told && goes_on && is_new)
}

#[test]
fn a_failed_call_is_as_a_stop_before_it(rt: HostRuntime) -> Result<(), Fail> {
    for call in 1..24 {
        assert!(rt; is_as_a_stop(rt.alloc(), call)?, "call {call}");
    }
    Ok(())
}

/// Bytes of a part, and whether it is damaged by them. Else it is absent.
const OTHERS: &[(&[u8], bool)] = &[
    (b"\x01\0\0\0", false),
    (b"\x01\0\0\0\x02x", true),
    (b"\x07\0\0\0\0x", true),
    (b"\0\0\0\0\x02x", false),
];

/// Whether a part of these bytes is damaged, or `None` where it is neither that nor absent.
fn is_damaged(alloc: Global, bytes: &[u8]) -> Option<bool> {
    let mut disk = MemDisk::new(alloc);
    disk.write_at(0, bytes).ok()?;
    match read_gated(alloc, &mut disk) {
        Ok(Gated::Damaged) => Some(true),
        Ok(Gated::Absent) => Some(false),
        _ => None,
    }
}

#[test]
fn other_parts_are_told_apart(rt: HostRuntime) {
    for (bytes, wanted) in OTHERS {
        assert_eq!(rt; is_damaged(rt.alloc(), bytes), Some(*wanted));
    }
}
