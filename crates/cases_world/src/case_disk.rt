ghost use Rattle.std.specs.Prelude.{◌≡◌, ◌<◌, ◌↔◌, IsTrue};
ghost use Rattle.bec_bytes.specs.Causes.{HasCause};
ghost use Rattle.cases_world.specs.Untold.{untold_disk, untold_reads};

use crate::trouble::Trouble;
use bec_bytes::Counted;
use bec_disk::{Disk, DiskFault, MemDisk};

/// A disk in memory, some of whose calls fail. It tells nothing of what it has.
#[derive(Drop)]
pub struct CaseDisk<'a> {
    disk: MemDisk,
    /// The number of the part that it is of.
    index: usize,
    /// What counts its calls.
    trouble: Option<&'a Trouble>,
    /// How many calls failed.
    faults: u64,
}

impl<'a> CaseDisk<'a> {
    /// A disk that had no calls.
    pub fn new(disk: MemDisk, index: usize, trouble: Option<&'a Trouble>) -> CaseDisk<'a>
        ensures { result.faults ≡ 0 }
    {
        CaseDisk {
            disk,
            index,
            trouble,
            faults: 0,
        }
    }

    /// The number of the part that it is of.
    pub fn index(&self) -> usize {
        self.index
    }

    /// Whether a call failed.
    pub fn is_faulty(&self) -> bool
        ensures { IsTrue result ↔ (0 < self.now.faults) }
    {
        self.faults > 0
    }

    /// The disk in memory.
    pub fn into_disk(self) -> MemDisk {
        self.disk
    }

    /// Counts a call, and says whether it is to be made.
    fn is_next_made(&self) -> bool {
        match self.trouble {
            Some(trouble) => !trouble.fails_next(),
            None => true,
        }
    }

    /// Counts a fault where `outcome` is one.
    fn counted<T>(&mut self, outcome: Result<T, DiskFault>) -> Result<T, DiskFault>
        ensures cause { HasCause self.old.faults self.new.faults result }
    {
        if outcome.is_err() {
            self.faults = self.faults.saturating_add(1);
        }
        outcome
    }
}

impl<'a> Counted for CaseDisk<'a> {
    ghost faults = { λ d. d.faults };
}

impl<'a> Disk for CaseDisk<'a> {
    ghost state = { λ _. untold_disk };

    ghost reads = { λ _ tells. untold_reads tells };

    fn len(&mut self) -> Result<u64, DiskFault> {
        if !self.is_next_made() {
            return self.counted(Err(DiskFault));
        }
        let len = self.disk.len();
        self.counted(len)
    }

    fn read(&mut self, at: u64, buf: &mut [u8]) -> Result<(), DiskFault> {
        if !self.is_next_made() {
            return self.counted(Err(DiskFault));
        }
        let read = read_within(&mut self.disk, at, buf);
        self.counted(read)
    }

    fn write_at(&mut self, at: u64, bytes: &[u8]) -> Result<(), DiskFault> {
        if !self.is_next_made() {
            return self.counted(Err(DiskFault));
        }
        let written = write_within(&mut self.disk, at, bytes);
        self.counted(written)
    }

    fn cut(&mut self, len: u64) -> Result<(), DiskFault> {
        if !self.is_next_made() {
            return self.counted(Err(DiskFault));
        }
        let cut = cut_within(&mut self.disk, len);
        self.counted(cut)
    }

    fn sync(&mut self) -> Result<(), DiskFault> {
        if !self.is_next_made() {
            return self.counted(Err(DiskFault));
        }
        let synced = self.disk.sync();
        self.counted(synced)
    }
}

/// Reads bytes that the disk has.
pub fn read_within(disk: &mut MemDisk, at: u64, buf: &mut [u8]) -> Result<(), DiskFault> {
    let len = disk.len()?;
    if at > len || buf.len() as u64 > len - at {
        return Err(DiskFault);
    }
    disk.read(at, buf)
}

/// Writes bytes at a place that the disk has, or at its end.
pub fn write_within(disk: &mut MemDisk, at: u64, bytes: &[u8]) -> Result<(), DiskFault> {
    let len = disk.len()?;
    if at > len {
        return Err(DiskFault);
    }
    disk.write_at(at, bytes)
}

/// Leaves so many bytes of those that the disk has.
pub fn cut_within(disk: &mut MemDisk, left: u64) -> Result<(), DiskFault> {
    let len = disk.len()?;
    if left > len {
        return Err(DiskFault);
    }
    disk.cut(left)
}
