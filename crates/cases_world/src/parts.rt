//! The parts of directories, as files of them are.

use crate::case_disk::{cut_within, write_within};
use crate::trouble::Spot;
use bec_disk::{Disk, DiskFault, MemDisk, Part};
use cases_text::Fault;
use std::alloc::{AllocError, Global};

/// A part of a directory.
#[derive(Drop)]
struct Kept {
    dir: String,
    part: Part,
    /// Its disk, unless that is handed out or the part does not exist.
    disk: Option<MemDisk>,
}

/// The parts of all directories.
#[derive(Drop)]
pub struct Parts {
    alloc: Global,
    kept: Vec<Kept>,
}

/// The image of a disk that is what it reads as.
const READ: u64 = 1;

/// All parts that a directory may have.
const ALL: [Part; 5] = [
    Part::Schema,
    Part::Updates,
    Part::Key,
    Part::Used,
    Part::Peers,
];

/// The part whose file is called so.
pub fn part_of(name: &str) -> Option<Part> {
    match name {
        "schema" => Some(Part::Schema),
        "updates" => Some(Part::Updates),
        "key" => Some(Part::Key),
        "used" => Some(Part::Used),
        "peers" => Some(Part::Peers),
        _ => None,
    }
}

impl Parts {
    /// There is no part.
    pub fn new(alloc: Global) -> Parts {
        Parts {
            alloc,
            kept: Vec::new(alloc),
        }
    }

    /// The number of a part.
    fn index_of(&self, dir: &str, part: Part) -> Option<usize> {
        self.kept
            .iter()
            .position(|kept| kept.part == part && kept.dir.as_str() == dir)
    }

    /// Hands a part out that stands in its place, with its number, settled.
    pub fn hand_out(
        &mut self,
        dir: &str,
        part: Part,
    ) -> Result<Option<(usize, MemDisk)>, AllocError> {
        let Some(index) = self.index_of(dir, part) else {
            return Ok(None);
        };
        let Some(mut disk) = self.take(index) else {
            return Ok(None);
        };
        if let Err(error) = disk.settle_as(dir, part) {
            self.put_back(index, disk);
            return Err(error);
        }
        Ok(Some((index, disk)))
    }

    /// Takes the disk of a part of a number, where there is one.
    fn take(&mut self, index: usize) -> Option<MemDisk> {
        match self.kept.get_mut(index) {
            Some(kept) => kept.disk.take(),
            None => None,
        }
    }

    /// Makes a part with nothing in it, and hands it out with its number.
    pub fn make(&mut self, dir: &str, part: Part) -> Result<(usize, MemDisk), AllocError> {
        let disk = MemDisk::new(self.alloc);
        if let Some(index) = self.index_of(dir, part) {
            return Ok((index, disk));
        }
        let index = self.kept.len();
        self.push(dir, part, None)?;
        Ok((index, disk))
    }

    /// Lets a disk stand as the part of a number.
    pub fn put_back(&mut self, index: usize, disk: MemDisk) {
        if let Some(kept) = self.kept.get_mut(index) {
            kept.disk = Some(disk);
        }
    }

    /// Adds a part.
    fn push(&mut self, dir: &str, part: Part, disk: Option<MemDisk>) -> Result<(), AllocError> {
        let dir = String::from_str(self.alloc, dir)?;
        self.kept.push(Kept { dir, part, disk })?;
        Ok(())
    }

    /// Lets a disk stand as a part, in place of one that stood there.
    fn set(&mut self, dir: &str, part: Part, disk: MemDisk) -> Result<(), AllocError> {
        match self.index_of(dir, part) {
            Some(index) => {
                self.put_back(index, disk);
                Ok(())
            }
            None => self.push(dir, part, Some(disk)),
        }
    }

    /// A copy of a part, where there is one.
    fn copy_of(&self, dir: &str, part: Part) -> Result<Option<MemDisk>, AllocError> {
        for kept in &self.kept {
            if kept.part == part && kept.dir.as_str() == dir {
                return left_of(&kept.disk, READ);
            }
        }
        Ok(None)
    }

    /// Copies what is at one spot to another. Of a directory a part that is not there is none of the copy.
    pub fn copy(&mut self, from: &Spot, to: &Spot) -> Result<(), Fault> {
        match (from.part, to.part) {
            (None, None) => {
                for part in ALL {
                    self.copy_part(&from.dir, part, &to.dir, part)?;
                }
                Ok(())
            }
            (Some(part), Some(other)) => Ok(self.copy_part(&from.dir, part, &to.dir, other)?),
            _ => Err(Fault::Text("a directory and a part of one are two things")),
        }
    }

    /// Copies a part, or its absence.
    fn copy_part(
        &mut self,
        from: &str,
        part: Part,
        to: &str,
        other: Part,
    ) -> Result<(), AllocError> {
        match self.copy_of(from, part)? {
            Some(disk) => self.set(to, other, disk),
            None => {
                self.remove_part(to, other);
                Ok(())
            }
        }
    }

    /// Removes what is at a spot.
    pub fn remove(&mut self, spot: &Spot) {
        for kept in self.kept.iter_mut() {
            if spot.has(&kept.dir, kept.part) {
                kept.disk = None;
            }
        }
    }

    /// Removes a part.
    fn remove_part(&mut self, dir: &str, part: Part) {
        if let Some(index) = self.index_of(dir, part) {
            if let Some(kept) = self.kept.get_mut(index) {
                kept.disk = None;
            }
        }
    }

    /// Takes the disk of the part at a spot, with its number.
    fn take_at(&mut self, spot: &Spot) -> Result<(usize, MemDisk), Fault> {
        let found = match spot.part {
            Some(part) => self.index_of(&spot.dir, part),
            None => None,
        };
        let Some(index) = found else {
            return Err(Fault::Text("there is no such part of a directory"));
        };
        match self.take(index) {
            Some(disk) => Ok((index, disk)),
            None => Err(Fault::Text("there is no such part of a directory")),
        }
    }

    /// Puts bytes over those of a part, from a place on that is counted from the end where it is negative.
    pub fn change(&mut self, spot: &Spot, at: i64, bytes: &[u8]) -> Result<(), Fault> {
        let (index, mut disk) = self.take_at(spot)?;
        let outcome = change_disk(&mut disk, at, bytes);
        self.put_back(index, disk);
        reached(outcome)
    }

    /// Leaves so many bytes of a part, or all but so many where that is negative.
    pub fn cut(&mut self, spot: &Spot, left: i64) -> Result<(), Fault> {
        let (index, mut disk) = self.take_at(spot)?;
        let outcome = cut_disk(&mut disk, left);
        self.put_back(index, disk);
        reached(outcome)
    }

    /// Lets these bytes be a part.
    pub fn put(&mut self, spot: &Spot, bytes: &[u8]) -> Result<(), Fault> {
        let Some(part) = spot.part else {
            return Err(Fault::Text("there is no such part of a directory"));
        };
        let mut disk = MemDisk::new(self.alloc);
        if write_within(&mut disk, 0, bytes).is_err() {
            return Err(Fault::Memory);
        }
        self.set(&spot.dir, part, disk)?;
        Ok(())
    }

    /// Lets a crash leave this image of each part.
    pub fn crash(&mut self, image: u64) -> Result<(), AllocError> {
        for kept in self.kept.iter_mut() {
            let left = left_of(&kept.disk, image)?;
            kept.disk = left;
        }
        Ok(())
    }

    /// Takes the parts of a directory away, to stand alone.
    pub fn take_directory(&mut self, dir: &str) -> Result<Parts, AllocError> {
        let mut taken = Parts::new(self.alloc);
        for part in ALL {
            if let Some(disk) = self.copy_of(dir, part)? {
                self.remove_part(dir, part);
                taken.push(dir, part, Some(disk))?;
            }
        }
        Ok(taken)
    }

    /// Puts parts of other directories beside these.
    pub fn join(&mut self, others: &Parts) -> Result<(), AllocError> {
        for other in &others.kept {
            if let Some(disk) = left_of(&other.disk, READ)? {
                self.set(&other.dir, other.part, disk)?;
            }
        }
        Ok(())
    }
}

/// What a crash leaves of a disk, where there is one.
fn left_of(disk: &Option<MemDisk>, image: u64) -> Result<Option<MemDisk>, AllocError> {
    match disk {
        Some(disk) => Ok(Some(disk.restart(image)?)),
        None => Ok(None),
    }
}

/// What is said of a place that a disk may not reach.
fn reached(outcome: Result<(), DiskFault>) -> Result<(), Fault> {
    match outcome {
        Ok(()) => Ok(()),
        Err(_) => Err(Fault::Text("the part does not reach so far")),
    }
}

/// Puts bytes over those of a disk, from a place on that is counted from the end where it is negative.
fn change_disk(disk: &mut MemDisk, at: i64, bytes: &[u8]) -> Result<(), DiskFault> {
    let place = place_of(disk, at)?;
    write_within(disk, place, bytes)
}

/// Leaves so many bytes of a disk, or all but so many where that is negative.
fn cut_disk(disk: &mut MemDisk, left: i64) -> Result<(), DiskFault> {
    let place = place_of(disk, left)?;
    cut_within(disk, place)
}

/// The place of a number, which is counted from the end where it is negative.
fn place_of(disk: &mut MemDisk, at: i64) -> Result<u64, DiskFault> {
    let len = disk.len()?;
    if at < 0 {
        return len.checked_sub(at.unsigned_abs()).ok_or(DiskFault);
    }
    Ok(at.unsigned_abs())
}
