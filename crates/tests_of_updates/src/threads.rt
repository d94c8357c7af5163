//! Records that are checked on several threads, one of them damaged.

use crate::signed::{PLAIN, rule, signed};
use bec_disk::{Disk, MemDisk};
use record_check::{ManyThreads, OneThread, Verifier};
use std::alloc::{AllocError, Global};
use std::test::Fail;
use std::thread::Threads;
use update_log::Log;
use update_model::DbRule;

/// How many records there are: enough for several threads.
const COUNT: u8 = 20;

/// How many updates an opening takes of a disk with these bytes.
fn taken<V: Verifier>(
    verifier: &V,
    alloc: Global,
    rule: &DbRule,
    bytes: &[u8],
) -> Result<u32, Fail> {
    let mut disk = MemDisk::new(alloc);
    disk.write_at(0, bytes)?;
    match Log::open_log(verifier, alloc, disk.restart(1)?, rule) {
        Ok((_log, graph)) => Ok(graph.len()),
        Err(fault) => Err(fault.why)?,
    }
}

/// The records of so many updates.
fn records(alloc: Global) -> Result<Vec<u8>, AllocError> {
    let mut records = Vec::new(alloc);
    for seed in 0..COUNT {
        let (update, _) = signed(alloc, [seed, 0, 0], PLAIN)?;
        records.extend_from_slice(&[[0, 0, 17, 205].as_slice(), &update].concat(alloc)?)?;
    }
    Ok(records)
}

/// How many updates one thread and many take of records of which one is damaged.
fn both_taken<R: Threads + Sync>(
    rt: &R,
    alloc: Global,
    records: &[u8],
    damaged: usize,
) -> Result<(u32, u32), Fail> {
    let rule = rule(alloc);
    let mut bytes = Vec::from_slice(alloc, records)?;
    if let Some(byte) = bytes.get_mut(damaged.saturating_mul(4561).saturating_add(4000)) {
        *byte ^= 1;
    }
    let one = taken(&OneThread, alloc, &rule, &bytes)?;
    Ok((one, taken(&ManyThreads::new(rt), alloc, &rule, &bytes)?))
}

#[test]
fn many_threads_take_what_one_takes(rt: HostRuntime) -> Result<(), Fail> {
    let records = records(rt.alloc())?;
    for damaged in [0, 4, 5, 11, 19, 20] {
        let taken = both_taken(&rt, rt.alloc(), &records, damaged as usize)?;
        assert_eq!(rt; taken, (damaged, damaged));
    }
    Ok(())
}
