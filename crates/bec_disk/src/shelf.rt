ghost use Rattle.std.specs.Prelude.{◌≡◌, ◌≢◌, ◌≤◌, ◌<◌, Some, IsTrue, IfOk, IfSome};
ghost use Rattle.bec_bytes.specs.Causes.{HasCause, Rose};
ghost use Rattle.bec_disk.specs.Slot.{Slot, slot};
ghost use Rattle.bec_disk.specs.Shelf.{ShelfState, absent, out, Finds, Makes, PutsBack, IsOfOut};

use crate::disk::Disk;
use crate::disk_fault::DiskFault;
use crate::part::Part;
use bec_bytes::Counted;

/// The parts of directories. Each is handed out as a disk, and stands in its place again once that
/// disk is put back.
pub trait Shelf: Counted {
    /// What a part is handed out as.
    type D: Disk;

    /// Whether the shelf tells what it has, and which parts exist, stand in their place or are out.
    ghost state: { Self → ShelfState };

    /// Hands a part out that is in its place, as a disk whose count is 0 and with which a crash
    /// leaves what it reads as. Answers `None` exactly where there is no such part.
    fn find(&mut self, dir: &str, part: Part) -> Result<Option<Self::D>, DiskFault>
        requires { IsTrue (state self.old).tells → (state self.old).parts (slot dir.now part) ≢ out }
        ensures finds { Finds Self.D.state (state self.old) (slot dir.now part) result (state self.new) }
        ensures clean { IfOk result (λ found. IfSome found (λ disk. Self.D.faults disk ≡ 0)) }
        ensures cause { HasCause (Self.faults self.old) (Self.faults self.new) result };

    /// Makes a part that does not exist, with nothing in it, and hands it out as a disk whose count
    /// is 0.
    fn make(&mut self, dir: &str, part: Part) -> Result<Self::D, DiskFault>
        requires { IsTrue (state self.old).tells → (state self.old).parts (slot dir.now part) ≡ absent }
        ensures makes { Makes Self.D.state (state self.old) (slot dir.now part) result (state self.new) }
        ensures clean { IfOk result (λ disk. Self.D.faults disk ≡ 0) }
        ensures cause { HasCause (Self.faults self.old) (Self.faults self.new) result };

    /// Takes a disk back as the part that it is of, which has to be out. Nothing is synced by it. A
    /// disk that has counted a fault counts as one of the shelf.
    fn put_back(&mut self, disk: Self::D)
        requires { IsTrue (state self.old).tells → IsOfOut (state self.old) (Self.D.state disk) }
        ensures tells { (state self.new).tells ≡ (state self.old).tells }
        ensures puts { (place : Slot) → (Self.D.state disk).slot ≡ Some place
            → PutsBack (state self.old) place (Self.D.state disk) (state self.new) }
        ensures later { Self.faults self.old ≤ Self.faults self.new }
        ensures faulted { 0 < Self.D.faults disk → Rose (Self.faults self.old) (Self.faults self.new) }
        ensures clean { Self.D.faults disk ≡ 0 → Self.faults self.new ≡ Self.faults self.old };
}
