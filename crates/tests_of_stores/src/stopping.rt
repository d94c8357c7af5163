//! A shelf in memory on which the disk of one part of a directory stops.

ghost use Rattle.std.specs.Prelude.{◌≡◌, IfOk};
ghost use Rattle.bec_disk.specs.Replay.{state_of};
ghost use Rattle.bec_disk.specs.Shelved.{shelf_of};
ghost use Rattle.key_directory.specs.Parts.{IsHome};

use bec_bytes::Counted;
use bec_disk::{DiskFault, MemDisk, MemShelf, Part, Shelf};
use std::alloc::{AllocError, Global};
use std::marker::Model;

/// A part of a directory.
pub type Place = (&'static str, Part);

/// A shelf in memory. The disk that it hands out as one certain part of a directory passes so many calls, and fails
/// every later one.
#[derive(Drop)]
pub struct StoppingShelf {
    alloc: Global,
    shelf: MemShelf,
    place: Place,
    calls: u64,
}

impl Model for StoppingShelf {
    ghost use Rattle.bec_disk.specs.Shelved.{MemShelfState};

    ghost Value = { MemShelfState };

    ghost view = { λ s. s.shelf };
}

impl StoppingShelf {
    /// Over a shelf, for this part of a directory.
    pub fn over(alloc: Global, shelf: MemShelf, place: Place, calls: u64) -> StoppingShelf
        ensures { result ≡ shelf }
    {
        StoppingShelf {
            alloc,
            shelf,
            place,
            calls,
        }
    }

    /// What a crash leaves, by a choice as of [`MemShelf::restart`].
    pub fn left(&self, choice: u64) -> Result<MemShelf, AllocError>
        requires { IsHome (shelf_of self.now) }
        ensures { IfOk result (λ left. IsHome (shelf_of left)) }
    {
        left_of(&self.shelf, choice)
    }

    /// Lets a disk stop, where it is handed out as the certain part.
    fn arm(&self, dir: &str, part: Part, disk: &mut MemDisk)
        ensures state { state_of disk.new ≡ state_of disk.old }
        ensures faults { disk.new.plan.faults ≡ disk.old.plan.faults }
    {
        if part == self.place.1 && dir == self.place.0 {
            disk.plan_calls(Vec::new(self.alloc), self.calls);
        }
    }
}

/// What a crash leaves of a shelf.
pub fn left_of(shelf: &MemShelf, choice: u64) -> Result<MemShelf, AllocError>
    requires { IsHome (shelf_of shelf.now) }
    ensures { IfOk result (λ left. IsHome (shelf_of left)) }
{
    shelf.restart(choice)
}

impl Counted for StoppingShelf {
    ghost faults = { λ shelf. shelf.faults };
}

impl Shelf for StoppingShelf {
    ghost use Rattle.bec_disk.specs.Shelved.{shelf_of};

    type D = MemDisk;

    ghost state = { shelf_of };

    fn find(&mut self, dir: &str, part: Part) -> Result<Option<MemDisk>, DiskFault> {
        let found = self.shelf.find(dir, part)?;
        let Some(mut disk) = found else {
            return Ok(None);
        };
        self.arm(dir, part, &mut disk);
        Ok(Some(disk))
    }

    fn make(&mut self, dir: &str, part: Part) -> Result<MemDisk, DiskFault> {
        let mut disk = self.shelf.make(dir, part)?;
        self.arm(dir, part, &mut disk);
        Ok(disk)
    }

    fn put_back(&mut self, disk: MemDisk) {
        self.shelf.put_back(disk);
    }
}
