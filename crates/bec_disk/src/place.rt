ghost use Rattle.std.specs.Prelude.{◌≡◌, IfOk};
ghost use Rattle.bec_disk.specs.Slot.{slot, same_slot};

use crate::part::Part;
use std::alloc::{AllocError, Global};
use std::marker::Model;

/// Where a part stands: the name of a directory, and which of its parts.
#[derive(Drop)]
pub struct Place {
    dir: Vec<u8>,
    part: Part,
}

impl Model for Place {
    ghost use Rattle.bec_disk.specs.Slot.{Slot};

    ghost Value = { Slot };

    ghost view = { λ p. record { dir = p.dir.items; part = p.part } };
}

impl Place {
    /// This part of this directory. It fails for want of memory alone.
    pub fn new(alloc: Global, dir: &str, part: Part) -> Result<Place, AllocError>
        ensures { IfOk result (λ place. place ≡ slot dir.now part) }
    {
        let dir = dir.as_bytes().to_vec(alloc)?;
        Ok(Place { dir, part })
    }

    /// The same place once more. It fails for want of memory alone.
    pub fn copy(&self, alloc: Global) -> Result<Place, AllocError>
        ensures { IfOk result (λ place. place ≡ self.now) }
    {
        let dir = self.dir.to_vec(alloc)?;
        Ok(Place {
            dir,
            part: self.part,
        })
    }

    /// Whether it is this part of this directory.
    pub fn is(&self, dir: &[u8], part: Part) -> bool
        ensures { result ≡ same_slot self.now (slot dir.now part) }
    {
        self.part == part && self.dir.as_slice() == dir
    }

    /// The name of the directory.
    pub fn dir(&self) -> &[u8]
        ensures { result.now ≡ self.now.dir }
    {
        &self.dir
    }

    /// Which part of the directory it is.
    pub fn part(&self) -> Part
        ensures { result ≡ self.now.part }
    {
        self.part
    }
}
