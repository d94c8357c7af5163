ghost use Rattle.std.specs.Prelude.{◌≡◌};
ghost use Rattle.cases_world.specs.Untold.{untold_shelf};

use crate::case_disk::CaseDisk;
use crate::parts::Parts;
use crate::trouble::Trouble;
use bec_bytes::Counted;
use bec_disk::{DiskFault, Part, Shelf};

/// The shelf of one command: directories in memory, on whose disks some calls fail. It tells nothing of what it has.
#[derive(Drop)]
pub struct CaseShelf<'a> {
    parts: Parts,
    trouble: &'a Trouble,
    /// How many calls failed, and how many disks came back that had failed.
    faults: u64,
}

impl<'a> CaseShelf<'a> {
    /// A shelf with these parts.
    pub fn new(parts: Parts, trouble: &'a Trouble) -> CaseShelf<'a> {
        CaseShelf {
            parts,
            trouble,
            faults: 0,
        }
    }

    /// The parts that stand on it.
    pub fn into_parts(self) -> Parts {
        self.parts
    }

    /// What counts the calls on the disk of this part.
    fn trouble_of(&self, dir: &str, part: Part) -> Option<&'a Trouble> {
        if self.trouble.counts(dir, part) {
            Some(self.trouble)
        } else {
            None
        }
    }
}

impl<'a> Counted for CaseShelf<'a> {
    ghost faults = { λ s. s.faults };
}

impl<'a> Shelf for CaseShelf<'a> {
    type D = CaseDisk<'a>;

    ghost state = { λ _. untold_shelf };

    fn find(&mut self, dir: &str, part: Part) -> Result<Option<CaseDisk<'a>>, DiskFault> {
        let trouble = self.trouble_of(dir, part);
        match self.parts.hand_out(dir, part) {
            Ok(Some((index, disk))) => Ok(Some(CaseDisk::new(disk, index, trouble))),
            Ok(None) => Ok(None),
            Err(_) => {
                self.faults = self.faults.saturating_add(1);
                Err(DiskFault)
            }
        }
    }

    fn make(&mut self, dir: &str, part: Part) -> Result<CaseDisk<'a>, DiskFault> {
        let trouble = self.trouble_of(dir, part);
        match self.parts.make(dir, part) {
            Ok((index, disk)) => Ok(CaseDisk::new(disk, index, trouble)),
            Err(_) => {
                self.faults = self.faults.saturating_add(1);
                Err(DiskFault)
            }
        }
    }

    fn put_back(&mut self, disk: CaseDisk<'a>) {
        let (index, is_faulty) = (disk.index(), disk.is_faulty());
        self.parts.put_back(index, disk.into_disk());
        if is_faulty {
            self.faults = self.faults.saturating_add(1);
        }
    }
}
