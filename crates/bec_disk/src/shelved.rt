ghost use Rattle.std.specs.Prelude.{◌≡◌, IfOk, OnErr};
ghost use Rattle.std.specs.List.{position};
ghost use Rattle.bec_disk.specs.Slot.{slot};
ghost use Rattle.bec_disk.specs.Left.{AreLeft, IsDiskLeft};
ghost use Rattle.bec_disk.specs.Shelved.{HandsOutDisk, is_at};

use crate::mem_disk::MemDisk;
use crate::part::Part;
use crate::place::Place;
use std::alloc::{AllocError, Global};

/// A part on a shelf in memory: where it stands, and the disk, unless that is handed out.
#[derive(Drop)]
pub struct Shelved {
    pub place: Place,
    pub disk: Option<MemDisk>,
}

/// Takes the disk out of the entry, settled and as the disk of this part.
pub fn hand_out(entry: &mut Shelved, dir: &str, part: Part) -> Result<Option<MemDisk>, AllocError>
    ensures taken { IfOk result (λ found. HandsOutDisk entry.old (slot dir.now part) found entry.new) }
    ensures same { OnErr result (entry.new ≡ entry.old) }
{
    let Some(mut disk) = entry.disk.take() else {
        return Ok(None);
    };
    if let Err(error) = disk.settle_as(dir, part) {
        entry.disk = Some(disk);
        return Err(error);
    }
    Ok(Some(disk))
}

/// Which entry is that of this part.
pub fn index_of(entries: &[Shelved], dir: &[u8], part: Part) -> Option<usize>
    ensures { result ≡ position (is_at (slot dir.now part)) entries.now }
{
    entries.iter().position(|entry| entry.place.is(dir, part))
}

/// These entries as a crash leaves them, by a choice as of [`MemDisk::restart`].
pub fn left_of(alloc: Global, entries: &[Shelved], choice: u64) -> Result<Vec<Shelved>, AllocError>
    ensures { IfOk result (λ left. AreLeft choice entries.now left.items) }
{
    let mut left = Vec::new(alloc);
    for entry in entries {
        let place = entry.place.copy(alloc)?;
        let disk = restarted(&entry.disk, choice)?;
        left.push(Shelved { place, disk })?;
    }
    Ok(left)
}

/// A disk as a crash leaves it, where there is one.
fn restarted(disk: &Option<MemDisk>, choice: u64) -> Result<Option<MemDisk>, AllocError>
    ensures { IfOk result (λ left. IsDiskLeft choice disk.now left) }
{
    match disk {
        Some(disk) => Ok(Some(disk.restart(choice)?)),
        None => Ok(None),
    }
}
