use crate::opening::{OpenedLog, open_at};
use crate::piece_reader::PIECE;
use crate::writing::write_records;
use bec_disk::{Disk, DiskError, DiskFault, MemDisk, cut_synced};
use hash_graph::Graph;
use record_check::Verifier;
use std::alloc::Global;
use std::marker::Model;
use update_check::Checked;
use update_model::DbRule;

/// A log of updates on a disk: records that are acknowledged, which a crash leaves as they are, and behind them, where
/// a call failed, bytes of records that are not.
#[derive(Drop)]
pub struct Log<D: Disk> {
    disk: D,
    /// Where the acknowledged records end.
    end: u64,
    dropped: u64,
    is_unsure: bool,
    /// Where records are gathered before they are written.
    piece: Vec<u8>,
}

impl<D: Disk> Model for Log<D> {
    ghost use Rattle.std.specs.Prelude.{◌≡◌, IsTrue, length};
    ghost use Rattle.update_log.specs.Log.{LogState, IsKept};
    ghost use Rattle.update_log.specs.declared.piece_reader.TheConstants.{PIECE};

    ghost Value = { LogState };

    ghost view = { λ l. record {
      disk = D.state l.disk;
      faults = D.faults l.disk;
      end = l.end;
      dropped = l.dropped;
      is_unsure = l.is_unsure;
    } };

    ghost invariant = { λ l. (IsTrue (D.state l.disk).tells → IsKept l.end l.is_unsure (D.state l.disk))
        × (length l.piece.items ≡ PIECE) };
}

impl<D: Disk> Log<D> {
    ghost use Rattle.std.specs.Prelude.{◌≡◌, ◌≤◌, ◌+◌, ◌++◌, ℕ, List, IsTrue, false, is_err, IfOk, IfErr, OnOk, OnErr};
    ghost use Rattle.std.specs.Prelude.{length};
    ghost use Rattle.bec_bytes.specs.Causes.{HasCause, Rose};
    ghost use Rattle.bec_bytes.specs.Framed.{stream_of};
    ghost use Rattle.bec_disk.specs.Disk.{EveryImage, IsSettled, LeavesOnly};
    ghost use Rattle.update_log.specs.Log.{IsClean, IsLogOf, IsNextBatch, KeepsLogset, acknowledged};
    ghost use Rattle.update_log.specs.Logset.{BeginsWith, IsLogset};
    ghost use Rattle.update_check.specs.Members.{AreMembers};

    /// Opens a log on a disk that is settled, and answers it with the graph of its updates: those of the longest front
    /// of whole records that are a closed list under the rule. What stands behind them is cut. The verifier checks the
    /// records.
    pub fn open_log<V: Verifier>(
        verifier: &V,
        alloc: Global,
        mut disk: D,
        rule: &DbRule,
    ) -> Result<(Log<D>, Graph<Checked>), LogFault<D>>
        requires { IsTrue (D.state disk).tells → IsSettled (D.state disk) }
        ensures list { IsTrue (D.state disk).tells
            → IfOk result (λ opened. IsLogset rule.now (D.state disk).seen opened.1) }
        ensures members { IfOk result (λ opened. AreMembers rule.now opened.1) }
        ensures log { IfOk result (λ opened. IsLogOf opened.1 opened.0) }
        ensures clean { IsTrue (D.state disk).tells → IfOk result (λ opened. IsClean opened.0.end opened.0.disk) }
        ensures sure { IfOk result (λ opened. opened.0.is_unsure ≡ false) }
        ensures dropped { IsTrue (D.state disk).tells
            → IfOk result (λ opened. length (D.state disk).seen ≡ opened.0.end + opened.0.dropped) }

        // A crash at any moment of it leaves the list that stood there in front, whatever it answers.
        ensures any_moment { IfOk result (λ opened. KeepsLogset rule.now (D.state disk) opened.0.disk) }
        ensures any_moment_err { IfErr result (λ fault. KeepsLogset rule.now (D.state disk) (D.state fault.disk)) }
        ensures later { IfOk result (λ opened. D.faults disk ≤ opened.0.faults) }
        ensures later_err { IfErr result (λ fault. D.faults disk ≤ D.faults fault.disk) }
        ensures fault { IfErr result (λ fault. fault.why ≡ DiskError.DiskFault
            → Rose (D.faults disk) (D.faults fault.disk)) }
    {
        match open_at(verifier, alloc, &mut disk, rule) {
            Ok(opened) => {
                let OpenedLog {
                    graph,
                    end,
                    dropped,
                    piece,
                } = opened;
                let log = Log {
                    disk,
                    end,
                    dropped,
                    is_unsure: false,
                    piece,
                };
                Ok((log, graph))
            }
            Err(why) => Err(LogFault { why, disk }),
        }
    }

    /// How many bytes were cut when the log was opened.
    pub fn dropped(&self) -> u64
        ensures { result ≡ self.now.dropped }
    {
        self.dropped
    }

    /// Whether a call failed, so that other bytes may stand behind the acknowledged ones; and what holds of every log.
    pub fn is_unsure(&self) -> bool
        ensures value { result ≡ self.now.is_unsure }
        ensures kept { IsTrue self.now.disk.tells → EveryImage self.now.disk.now (BeginsWith (acknowledged self.now)) }
    {
        self.is_unsure
    }

    /// Adds records behind the acknowledged ones, and syncs. At `Ok` they are acknowledged. After an `Err` the log is
    /// unsure until [`Log::repair`] succeeds.
    pub fn append(&mut self, batch: &[Checked]) -> Result<(), DiskFault>
        requires sure { self.old.is_unsure ≡ false }
        requires next { IsNextBatch self.old batch.now }
        ensures added { (members : List (List ℕ)) → IsLogOf members self.old
            → OnOk result (IsLogOf (members ++ batch.now) self.new) }
        ensures kept { (members : List (List ℕ)) → IsLogOf members self.old → OnErr result (IsLogOf members self.new) }
        ensures clean { IsTrue self.old.disk.tells → OnOk result (IsClean self.new.end self.new.disk) }
        ensures sure { self.new.is_unsure ≡ is_err result }
        ensures dropped { self.new.dropped ≡ self.old.dropped }

        // A crash at any moment of it leaves what was acknowledged in front.
        ensures any_moment { LeavesOnly self.old.disk self.new.disk (BeginsWith (acknowledged self.old)) }
        ensures cause { HasCause self.old.faults self.new.faults result }
    {
        self.is_unsure = true;
        let end = write_records(&mut self.disk, &mut self.piece, self.end, batch)?;
        self.disk.sync()?;
        self.end = end;
        self.is_unsure = false;
        Ok(())
    }

    /// Cuts what stands behind the acknowledged records, and syncs. At `Ok` the log is sure.
    pub fn repair(&mut self) -> Result<(), DiskFault>
        ensures kept { (members : List (List ℕ)) → IsLogOf members self.old → IsLogOf members self.new }
        ensures clean { IsTrue self.old.disk.tells → OnOk result (IsClean self.new.end self.new.disk) }
        ensures sure { self.new.is_unsure ≡ is_err result }
        ensures dropped { self.new.dropped ≡ self.old.dropped }

        // A crash at any moment of it leaves what was acknowledged in front.
        ensures any_moment { LeavesOnly self.old.disk self.new.disk (BeginsWith (acknowledged self.old)) }
        ensures cause { HasCause self.old.faults self.new.faults result }
    {
        self.is_unsure = true;
        cut_synced(&mut self.disk, self.end)?;
        self.is_unsure = false;
        Ok(())
    }

    /// Gives the disk back.
    pub fn into_disk(self) -> D
        ensures state { D.state result ≡ self.disk }
        ensures faults { D.faults result ≡ self.faults }
    {
        let Log { disk, .. } = self;
        disk
    }
}

impl Log<MemDisk> {
    ghost use Rattle.std.specs.Prelude.{◌≡◌};

    /// Lets the disk pass so many calls more and then fail every call.
    pub fn arm(&mut self, calls: u32)
        ensures { self.new ≡ self.old }
    {
        self.disk.arm(calls);
    }

    /// Whether a call of the disk failed for want of memory.
    pub fn starved(&self) -> bool {
        self.disk.starved()
    }
}

/// A log that could not be opened.
#[derive(Drop)]
pub struct LogFault<D: Disk> {
    /// [`DiskError::DiskFault`] comes only where a call of the disk failed.
    pub why: DiskError,
    /// Its disk.
    pub disk: D,
}
