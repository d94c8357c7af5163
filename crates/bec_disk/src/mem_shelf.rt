ghost use Rattle.std.specs.Prelude.{◌≡◌, ◌≢◌, ◌≤◌, ◌<◌, ◌++◌, ◌∷◌, [], Some, None, IfOk, OnOk, OnErr};
ghost use Rattle.bec_bytes.specs.Causes.{HasCause, Rose, one_more};
ghost use Rattle.bec_disk.specs.Replay.{made_disk};
ghost use Rattle.bec_disk.specs.Shelf.{out, KeepsOthers};
ghost use Rattle.bec_disk.specs.Slot.{slot};

use crate::disk_fault::DiskFault;
use crate::mem_disk::MemDisk;
use crate::part::Part;
use crate::place::Place;
use crate::shelf::Shelf;
use crate::shelved::{Shelved, hand_out, index_of, left_of};
use bec_bytes::Counted;
use std::alloc::{AllocError, Global};
use std::marker::Model;

/// A shelf in memory, which keeps its parts by the directory's name and the part.
#[derive(Drop)]
pub struct MemShelf {
    alloc: Global,
    entries: Vec<Shelved>,
    faults: u64,
}

impl Model for MemShelf {
    ghost use Rattle.bec_disk.specs.Shelved.{MemShelfState};

    ghost Value = { MemShelfState };

    ghost view = { λ s. record { entries = s.entries.items; faults = s.faults } };
}

impl MemShelf {
    ghost use Rattle.bec_disk.specs.Left.{IsPartLeft};
    ghost use Rattle.bec_disk.specs.Replay.{numbered_anew};
    ghost use Rattle.bec_disk.specs.Shelved.{shelf_of, entry_at};
    ghost use Rattle.bec_disk.specs.Slot.{Slot};

    /// A shelf on which there is no part.
    pub fn new(alloc: Global) -> MemShelf
        ensures { result ≡ record { entries = []; faults = 0 } }
    {
        MemShelf {
            alloc,
            entries: Vec::new(alloc),
            faults: 0,
        }
    }

    /// Lets the disk stand as that part from now on, in place of one that was there. The part may not
    /// be handed out. The disk's calls are numbered from now on.
    pub fn put(&mut self, dir: &str, part: Part, mut disk: MemDisk) -> Result<(), AllocError>
        requires { (shelf_of self.old).parts (slot dir.now part) ≢ out }
        ensures stands { OnOk result (entry_at self.new.entries (slot dir.now part) ≡ Some
            (record { place = slot dir.now part; disk = Some (numbered_anew disk) })) }
        ensures others { KeepsOthers (shelf_of self.old) (slot dir.now part) (shelf_of self.new) }
        ensures same { OnErr result (self.new ≡ self.old) }
        ensures faults { self.new.faults ≡ self.old.faults }
    {
        disk.number_anew();
        let Some(index) = index_of(&self.entries, dir.as_bytes(), part) else {
            append(self.alloc, &mut self.entries, dir, part, Some(disk))?;
            return Ok(());
        };
        self.entries[index].disk = Some(disk);
        Ok(())
    }

    /// A shelf with what a crash may leave now of each part that stands in its place: for 0 what was
    /// synced last, for 1 what is read, and else a mixture by the number. Its count is 0, and its
    /// disks fail at no numbered call. A part that is out stays so.
    pub fn restart(&self, choice: u64) -> Result<MemShelf, AllocError>
        ensures left { IfOk result (λ shelf. (place : Slot) → IsPartLeft choice (entry_at self.now.entries place)
            (entry_at shelf.entries place)) }
        ensures count { IfOk result (λ shelf. shelf.faults ≡ 0) }
    {
        let alloc = self.alloc;
        let entries = left_of(alloc, &self.entries, choice)?;
        Ok(MemShelf {
            alloc,
            entries,
            faults: 0,
        })
    }
}

impl Counted for MemShelf {
    ghost faults = { λ shelf. shelf.faults };
}

impl Shelf for MemShelf {
    ghost use Rattle.bec_disk.specs.Shelved.{shelf_of};

    type D = MemDisk;

    ghost state = { shelf_of };

    fn find(&mut self, dir: &str, part: Part) -> Result<Option<MemDisk>, DiskFault> {
        let Some(index) = index_of(&self.entries, dir.as_bytes(), part) else {
            return Ok(None);
        };
        let Ok(found) = hand_out(&mut self.entries[index], dir, part) else {
            self.faults = self.faults.saturating_add(1);
            return Err(DiskFault);
        };
        Ok(found)
    }

    fn make(&mut self, dir: &str, part: Part) -> Result<MemDisk, DiskFault> {
        let Ok(disk) = add(self.alloc, &mut self.entries, dir, part) else {
            self.faults = self.faults.saturating_add(1);
            return Err(DiskFault);
        };
        Ok(disk)
    }

    fn put_back(&mut self, disk: MemDisk) {
        self.faults = faults_with(self.faults, &disk);
        let Some(index) = disk.index_in(&self.entries) else {
            return;
        };
        self.entries[index].disk = Some(disk);
    }
}

/// Adds the entry of a part that is handed out, and makes its disk. The entry is the room for that
/// disk to come back to.
fn add(
    alloc: Global,
    entries: &mut Vec<Shelved>,
    dir: &str,
    part: Part,
) -> Result<MemDisk, AllocError>
    ensures added { OnOk result (entries.new.items ≡ entries.old.items ++ record {
      place = slot dir.now part;
      disk = None;
    } ∷ []) }
    ensures made { IfOk result (λ disk. disk ≡ made_disk (slot dir.now part)) }
    ensures same { OnErr result (entries.new.items ≡ entries.old.items) }
{
    let disk = MemDisk::made(alloc, Place::new(alloc, dir, part)?);
    append(alloc, entries, dir, part, None)?;
    Ok(disk)
}

/// Adds the entry of a part.
fn append(
    alloc: Global,
    entries: &mut Vec<Shelved>,
    dir: &str,
    part: Part,
    disk: Option<MemDisk>,
) -> Result<(), AllocError>
    ensures added { OnOk result (entries.new.items ≡ entries.old.items ++ record {
      place = slot dir.now part;
      disk = disk;
    } ∷ []) }
    ensures same { OnErr result (entries.new.items ≡ entries.old.items) }
{
    let place = Place::new(alloc, dir, part)?;
    entries.push(Shelved { place, disk })?;
    Ok(())
}

/// The count of a shelf that takes a disk back.
fn faults_with(faults: u64, disk: &MemDisk) -> u64
    ensures later { faults ≤ result }
    ensures faulted { 0 < disk.now.plan.faults → result ≡ one_more faults }
    ensures clean { disk.now.plan.faults ≡ 0 → result ≡ faults }
{
    if disk.faults() == 0 {
        return faults;
    }
    faults.saturating_add(1)
}
