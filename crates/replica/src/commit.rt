//! Adding updates that came from elsewhere.

ghost use Rattle.std.specs.Prelude.{◌≡◌, ◌≤◌, ℕ, List, All, IsTrue, IfOk, OnOk, OnErr, IsErrOf, drop, false, length};
ghost use Rattle.std.specs.Prelude.{map, take};
ghost use Rattle.bec_bytes.specs.Causes.{HasCause, Rose};
ghost use Rattle.bec_bytes.specs.Framed.{stream_of};
ghost use Rattle.bec_disk.specs.Disk.{LeavesOnly};
ghost use Rattle.update_model.specs.Batch.{store_limits};
ghost use Rattle.update_codec.specs.Parts.{id_of};
ghost use Rattle.update_check.specs.Holding.{Commits};
ghost use Rattle.update_check.specs.Signed.{IsChecked};
ghost use Rattle.update_log.specs.Log.{IsClean, IsLogOf};
ghost use Rattle.update_log.specs.Logset.{BeginsWith};
ghost use Rattle.replica.specs.Faults.{batch_fault, tail_fault};
ghost use Rattle.replica.specs.Replicas.{IsSameStore};

use crate::replica::Replica;
use bec_disk::{Disk, DiskError, DiskFault};
use history::History;
use ready_batch::AddFault;
use row_check::{Checks, Relation};
use std::alloc::{AllocError, Global};
use update_check::{Checked, CheckedList, CommitFault, Committed};
use update_log::Log;
use update_model::{IdList, Member};

impl<D: Disk, L: Relation, C: Checks<L>> Replica<D, L, C> {
    /// Adds each update of a batch that can be added in some order, each once, and passes over known ones. The rest
    /// waits. What is added is on the disk.
    ///
    /// [`CommitFault::Full`] comes where all that can be added would pass a limit of a store, and
    /// [`CommitFault::DiskFault`] only where the count of the log's disk rose. After a refusal the updates are as they
    /// were, and the batch is given up; the disk may hold whole further records until the next call, which cuts them
    /// first.
    #[tactic(auto, using(crate::proofs::Declaring::still_taken, crate::proofs::Mapped::commits))]
    pub fn commit(&mut self, alloc: Global, batch: Vec<Checked>) -> Result<Committed, CommitFault>
        requires { All (IsChecked self.old.history.schema.rule) batch.items }
        ensures commits { Commits store_limits self.old.history.members batch.items result self.old.log.faults
            self.new.log.faults self.new.history.members }
        ensures store { IsSameStore self.old self.new }
        ensures clean { IsTrue self.old.log.disk.tells → OnOk result (IsClean self.new.log.end self.new.log.disk) }

        // A crash at any moment of it leaves what was held in front.
        ensures any_moment { LeavesOnly self.old.log.disk self.new.log.disk
            (BeginsWith (stream_of self.old.history.members)) }
        ensures later { self.old.log.faults ≤ self.new.log.faults }
    {
        self.log.is_unsure(); // what is acknowledged stands in front
        let len = self.history.len();
        let waiting = match self.history.add_batch(alloc, batch) {
            Ok(waiting) => waiting,
            Err(fault) => return Err(batch_fault(fault)),
        };
        self.history.len(); // what was added is within the limits
        match write_tail(alloc, &mut self.log, &self.history, len) {
            Ok(added) => Ok(Committed {
                added,
                waiting: CheckedList::from_vec(waiting),
            }),
            Err(error) => {
                self.history.cut(len);
                Err(tail_fault(error))
            }
        }
    }
}

/// Why a batch was not added to a history is why it is not committed.
fn batch_fault(fault: AddFault) -> CommitFault
    ensures { result ≡ batch_fault fault }
{
    match fault {
        AddFault::Full => CommitFault::Full,
        AddFault::Memory => CommitFault::Memory,
    }
}

/// What an error over the log's disk is to a batch.
fn tail_fault(error: DiskError) -> CommitFault
    ensures { result ≡ tail_fault error }
{
    match error {
        DiskError::DiskFault => CommitFault::DiskFault,
        DiskError::Memory => CommitFault::Memory,
    }
}

/// Writes the updates from a position on behind the log's records, after a repair where it is unsure, and answers their
/// ids. Memory is taken before anything is written.
pub fn write_tail<D: Disk, L: Relation, C: Checks<L>>(
    alloc: Global,
    log: &mut Log<D>,
    history: &History<L, C>,
    from: u32,
) -> Result<IdList, DiskError>
    requires low { from ≤ length history.now.members }
    requires log { IsLogOf (take from history.now.members) log.old }
    ensures ids { IfOk result (λ ids. ids ≡ map id_of (drop from history.now.members)) }
    ensures written { OnOk result (IsLogOf history.now.members log.new) }
    ensures kept { OnErr result (IsLogOf (take from history.now.members) log.new) }
    ensures clean { IsTrue log.old.disk.tells → OnOk result (IsClean log.new.end log.new.disk) }
    ensures any_moment { LeavesOnly log.old.disk log.new.disk (BeginsWith (stream_of (take from history.now.members))) }
    ensures later { log.old.faults ≤ log.new.faults }
    ensures failed { IsErrOf result DiskError.DiskFault → Rose log.old.faults log.new.faults }
{
    log.is_unsure(); // what is acknowledged stands in front
    let ids = ids_of(alloc, history.tail(from))?;
    repair_if_unsure(log)?;
    history.len(); // what holds of every history
    log.append(history.tail(from))?;
    Ok(ids)
}

/// Cuts what stands behind the acknowledged records, where a call failed before.
fn repair_if_unsure<D: Disk>(log: &mut Log<D>) -> Result<(), DiskFault>
    ensures kept { (members : List (List ℕ)) → IsLogOf members log.old → IsLogOf members log.new }
    ensures sure { OnOk result (log.new.is_unsure ≡ false) }
    ensures any_moment { (members : List (List ℕ)) → IsLogOf members log.old
        → LeavesOnly log.old.disk log.new.disk (BeginsWith (stream_of members)) }
    ensures cause { HasCause log.old.faults log.new.faults result }
{
    if !log.is_unsure() {
        return Ok(());
    }
    log.repair()
}

/// The ids of updates.
fn ids_of(alloc: Global, updates: &[Checked]) -> Result<IdList, AllocError>
    ensures { IfOk result (λ ids. ids ≡ map id_of updates.now) }
{
    let mut ids = Vec::with_capacity(alloc, updates.len())?;
    for update in updates {
        ids.push(update.id())?;
    }
    Ok(IdList::from_vec(ids))
}
