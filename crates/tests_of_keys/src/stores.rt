//! Stores of one-time keys over disks in memory: what stops and crashes leave of a key and of its indices.

use bec_disk::MemDisk;
use key_index::{CreateKey, KeyStore};
use lm_ots::OtsType;
use lms_tree::{KeyTypes, LmsType, OneThread};
use rand_pcg::Pcg32;
use std::alloc::{AllocError, Global};
use std::test::Fail;

/// The disks of the parts Key and Used.
type Disks = (MemDisk, MemDisk);

/// Creates a key of 32 indices on two disks that pass so many calls, reserves so many indices until a call fails, and
/// answers the last one, if any, and the disks.
fn stopped(alloc: Global, key_calls: u32, used_calls: u32, count: u32) -> (Option<u32>, Disks) {
    let key = MemDisk::stopping(alloc, key_calls);
    let used = MemDisk::stopping(alloc, used_calls);
    let mut random = Pcg32::new(42, 54);
    let types = KeyTypes {
        lms: LmsType::H5,
        ots: OtsType::W2,
    };
    match KeyStore::create(&OneThread, alloc, key, used, types, &mut random) {
        Ok(mut store) => {
            let last = last_reserved(&mut store, count);
            (last, store.into_disks())
        }
        Err(CreateKey { why: _, key, used }) => (None, (key, used)),
    }
}

/// The last index of so many that are reserved one after another, until one is not.
fn last_reserved(store: &mut KeyStore<MemDisk>, count: u32) -> Option<u32> {
    let mut last = None;
    for _ in 0..count {
        let Ok(index) = store.reserve() else {
            return last;
        };
        last = Some(index);
    }
    last
}

/// How many indices are left of the key that a crash leaves of two disks, or `None` where no key opens.
fn left_after(alloc: Global, disks: &Disks, choice: u64) -> Result<Option<u32>, AllocError> {
    let key = disks.0.restart(choice)?;
    let used = disks.1.restart(choice)?;
    match KeyStore::open_key(&OneThread, alloc, key, used) {
        Ok(store) => Ok(Some(store.left())),
        Err(_) => Ok(None),
    }
}

/// How many calls the disks of Key and Used pass, how many indices are reserved, the last that is answered, and how
/// many indices are left after a crash that leaves what is synced, and one that leaves what is read.
type Row = (u32, u32, u32, Option<u32>, Option<u32>, Option<u32>);

// A creation takes three calls of the part Used: cut, 32 bytes, sync. A reservation takes two: one byte, sync. The part
// Key takes eleven calls: two len, cut, sync, one byte, sync, length, payload, sync, gate, sync.
const ROWS: &[Row] = &[
    (u32::MAX, 3, 3, None, Some(32), Some(32)),
    (u32::MAX, 4, 3, None, Some(32), Some(31)),
    (u32::MAX, 5, 3, Some(0), Some(31), Some(31)),
    (u32::MAX, 6, 3, Some(0), Some(31), Some(30)),
    (u32::MAX, 7, 3, Some(1), Some(30), Some(30)),
    (u32::MAX, u32::MAX, 32, Some(31), Some(0), Some(0)),
    (u32::MAX, u32::MAX, 33, Some(31), Some(0), Some(0)),
    (u32::MAX, 0, 0, None, None, None),
    (u32::MAX, 2, 0, None, None, None),
    (0, u32::MAX, 0, None, None, None),
    (9, u32::MAX, 0, None, None, None),
    (10, u32::MAX, 0, None, None, Some(32)),
    (11, u32::MAX, 0, None, Some(32), Some(32)),
];

/// What comes of a row's stop.
fn after_stop(alloc: Global, row: &Row) -> Result<Row, AllocError> {
    let (last, disks) = stopped(alloc, row.0, row.1, row.2);
    let synced = left_after(alloc, &disks, 0)?;
    let read = left_after(alloc, &disks, 1)?;
    Ok((row.0, row.1, row.2, last, synced, read))
}

#[test]
fn a_stop_leaves_a_whole_key_or_none(rt: HostRuntime) -> Result<(), Fail> {
    for row in ROWS {
        assert_eq!(rt; after_stop(rt.alloc(), row)?, *row);
    }
    Ok(())
}
