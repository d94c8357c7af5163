//! Leaving the log of a store with its updates and nothing else.

ghost use Rattle.std.specs.Prelude.{◌≡◌, ◌≤◌, IsErrOf, IsTrue, OnOk};
ghost use Rattle.bec_bytes.specs.Causes.{Rose};
ghost use Rattle.update_log.specs.Log.{IsClean};
ghost use Rattle.store_directory.specs.Settling.{KeepsGrowing};

use bec_disk::{Disk, DiskError};
use replica::Replica;
use row_check::Luhn;
use std::alloc::Global;
use update_check::CommitFault;

/// Commits nothing: that cuts what an act that failed may have left behind the updates. As nothing is added, no limit
/// is passed, and only a disk's fault or want of memory is in the way.
pub fn settle<D: Disk>(alloc: Global, replica: &mut Replica<D, Luhn, Luhn>) -> Result<(), DiskError>
    ensures grows { KeepsGrowing replica.old replica.new }
    ensures clean { IsTrue replica.old.log.disk.tells → OnOk result (IsClean replica.new.log.end replica.new.log.disk) }
    ensures failed { IsErrOf result DiskError.DiskFault → Rose replica.old.log.faults replica.new.log.faults }
    ensures later { replica.old.log.faults ≤ replica.new.log.faults }
{
    replica.len(); // what it holds is within the limits
    match replica.commit(alloc, Vec::new(alloc)) {
        Ok(_) => Ok(()),
        Err(CommitFault::DiskFault) => Err(DiskError::DiskFault),
        Err(CommitFault::Memory) => Err(DiskError::Memory),
        // Nothing is added, so that no limit is passed.
        Err(CommitFault::Full) => unreachable!(),
    }
}
