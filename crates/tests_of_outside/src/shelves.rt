//! Parts that are made, found and put back, one after another.

ghost use Rattle.std.specs.Prelude.{◌≡◌, ◌≢◌, Some, IfOk, OnErr, OnOk};
ghost use Rattle.bec_disk.specs.Replay.{state_of};
ghost use Rattle.bec_disk.specs.Shelf.{KeepsOthers, out};
ghost use Rattle.bec_disk.specs.Shelved.{shelf_of};
ghost use Rattle.bec_disk.specs.Slot.{Slot, slot};

use bec_disk::{Disk, DiskFault, MemDisk, MemShelf, Part, Shelf};
use std::alloc::{AllocError, Global};
use std::test::Fail;

/// A part by its directory, and bytes that it is made with.
type Made = (&'static str, Part, &'static [u8]);

const MADE: [Made; 4] = [
    ("a", Part::Key, b"the key of a"),
    ("b", Part::Key, b"the key of b"),
    ("a", Part::Used, b""),
    ("", Part::Updates, b"updates"),
];

/// Makes a part and hands it out. One that is there stays in its place, and that is a fault.
fn made_new(shelf: &mut MemShelf, dir: &str, part: Part) -> Result<MemDisk, DiskFault>
    requires home { (place : Slot) → (shelf_of shelf.old).parts place ≢ out }
    ensures home { OnErr result ((place : Slot) → (shelf_of shelf.new).parts place ≢ out) }
    ensures others { OnOk result (KeepsOthers (shelf_of shelf.old) (slot dir.now part) (shelf_of shelf.new)) }
    ensures of { IfOk result (λ disk. disk.slot ≡ Some (slot dir.now part)) }
    ensures is_out { OnOk result ((shelf_of shelf.new).parts (slot dir.now part) ≡ out) }
{
    match shelf.find(dir, part)? {
        Some(disk) => {
            shelf.put_back(disk);
            Err(DiskFault)
        }
        None => shelf.make(dir, part),
    }
}

/// Makes a part with these bytes and puts it back, and answers whether it did.
fn is_made(shelf: &mut MemShelf, made: &Made) -> bool
    requires home { (place : Slot) → (shelf_of shelf.old).parts place ≢ out }
    ensures home { (place : Slot) → (shelf_of shelf.new).parts place ≢ out }
{
    let Ok(mut disk) = made_new(shelf, made.0, made.1) else {
        return false;
    };
    let wrote = disk.write_at(0, made.2).is_ok();
    shelf.put_back(disk);
    wrote
}

/// What a disk reads as, or `None` where a call failed.
fn bytes_of(alloc: Global, disk: &mut MemDisk) -> Option<Vec<u8>>
    ensures { state_of disk.new ≡ state_of disk.old }
{
    let len = disk.len().ok()?;
    let mut bytes = vec![in alloc; 0; len as usize].ok()?;
    disk.read(0, &mut bytes).ok()?;
    Some(bytes)
}

/// What a part reads as, which is found and put back, or `None` where there is none.
fn found(alloc: Global, shelf: &mut MemShelf, dir: &str, part: Part) -> Option<Vec<u8>>
    requires home { (place : Slot) → (shelf_of shelf.old).parts place ≢ out }
    ensures home { (place : Slot) → (shelf_of shelf.new).parts place ≢ out }
{
    match shelf.find(dir, part) {
        Ok(Some(mut disk)) => {
            let bytes = bytes_of(alloc, &mut disk);
            shelf.put_back(disk);
            bytes
        }
        Ok(None) => None,
        Err(_) => None,
    }
}

/// Whether a part is found with the bytes that it was made with.
fn is_found(alloc: Global, shelf: &mut MemShelf, made: &Made) -> bool
    requires home { (place : Slot) → (shelf_of shelf.old).parts place ≢ out }
    ensures home { (place : Slot) → (shelf_of shelf.new).parts place ≢ out }
{
    match found(alloc, shelf, made.0, made.1) {
        Some(bytes) => bytes.as_slice() == made.2,
        None => false,
    }
}

/// How many of the parts are made.
fn made_count(shelf: &mut MemShelf) -> usize
    requires home { (place : Slot) → (shelf_of shelf.old).parts place ≢ out }
    ensures home { (place : Slot) → (shelf_of shelf.new).parts place ≢ out }
{
    let mut count = 0usize;
    for made in &MADE {
        count = count.saturating_add(usize::from(is_made(shelf, made)));
    }
    count
}

/// How many of the parts are found with the bytes that they were made with.
fn found_count(alloc: Global, shelf: &mut MemShelf) -> usize
    requires home { (place : Slot) → (shelf_of shelf.old).parts place ≢ out }
    ensures home { (place : Slot) → (shelf_of shelf.new).parts place ≢ out }
{
    let mut count = 0usize;
    for made in &MADE {
        count = count.saturating_add(usize::from(is_found(alloc, shelf, made)));
    }
    count
}

/// A shelf as a crash leaves it.
fn crashed(shelf: &MemShelf, choice: u64) -> Result<MemShelf, AllocError>
    requires home { (place : Slot) → (shelf_of shelf.now).parts place ≢ out }
    ensures home { IfOk result (λ left. (place : Slot) → (shelf_of left).parts place ≢ out) }
{
    let left = shelf.restart(choice)?;
    Ok(left)
}

/// How many of the parts a crash leaves with the bytes that they were made with.
fn left_count(alloc: Global, shelf: &MemShelf, choice: u64) -> Result<usize, AllocError>
    requires home { (place : Slot) → (shelf_of shelf.now).parts place ≢ out }
{
    let mut left = crashed(shelf, choice)?;
    Ok(found_count(alloc, &mut left))
}

#[test]
fn a_part_is_made_once_and_found_then(rt: HostRuntime) {
    let alloc = rt.alloc();
    let mut shelf = MemShelf::new(alloc);
    let counts = [
        found_count(alloc, &mut shelf),
        made_count(&mut shelf),
        made_count(&mut shelf),
        found_count(alloc, &mut shelf),
    ];
    assert_eq!(rt; counts, [0, 4, 0, 4]);
    assert!(rt; found(alloc, &mut shelf, "b", Part::Used).is_none());
}

/// How many parts are made, are left of what was synced and of what is read, are found, and are left then.
fn counts(alloc: Global) -> Result<[usize; 5], AllocError> {
    let mut shelf = MemShelf::new(alloc);
    let made = made_count(&mut shelf);
    let synced = left_count(alloc, &shelf, 0)?;
    let read = left_count(alloc, &shelf, 1)?;
    let found = found_count(alloc, &mut shelf);
    Ok([made, synced, read, found, left_count(alloc, &shelf, 0)?])
}

// Nothing is synced when it is made; one part is made with nothing in it.
#[test]
fn what_is_found_counts_as_synced(rt: HostRuntime) -> Result<(), Fail> {
    assert_eq!(rt; counts(rt.alloc())?, [4, 1, 4, 4, 4]);
    Ok(())
}
