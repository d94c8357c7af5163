//! Keys for seals whose disks stop: what is left seals, and no index signs twice.

ghost use Rattle.bec_disk.specs.Shelved.{shelf_of};
ghost use Rattle.key_directory.specs.Parts.{IsHome};

use crate::runs::{Run, Said, answer, begins, crashed};
use bec_disk::{Disk, MemDisk, MemShelf, Part};
use std::alloc::{AllocError, Global};
use std::test::Fail;

/// Draws a key. It is the same at each call.
pub const DRAW: Run<'static> = ("hsskey A --height 5 --width 2", b"", 42);

/// Seals an input.
pub const SEAL: Run<'static> = ("seal A", b"one", 1);

/// Seals another, and draws other bytes for it.
const AGAIN: Run<'static> = ("seal A", b"two", 2);

/// The public key that is drawn, as it is printed.
pub fn drawn_key(alloc: Global) -> Result<Vec<u8>, AllocError> {
    Ok(answer(alloc, &mut MemShelf::new(alloc), &DRAW)?.bytes)
}

/// Whether a run printed a seal of this input by a key.
fn is_good(alloc: Global, key: &[u8], sealed: &Said, input: &[u8]) -> Result<bool, AllocError> {
    let (Ok(key), Ok(seal)) = (str::from_utf8(key), str::from_utf8(&sealed.bytes)) else {
        return Ok(false);
    };
    let line = format!(in alloc; "unseal {key} {seal}")?;
    let said = answer(
        alloc,
        &mut MemShelf::new(alloc),
        &(line.as_str(), input, 42),
    )?;
    Ok(sealed.status == 0 && said.status == 0)
}

/// Where the digits of the lower key's signature begin, where both keys are of the same types.
fn low_place(seal: &[u8]) -> usize {
    120 + seal.len().saturating_sub(121) / 2
}

/// The digits of the leaf of the top key, and of that of the lower key.
fn leaves(seal: &[u8]) -> (Option<&[u8]>, Option<&[u8]>) {
    let place = low_place(seal);
    (seal.get(8..16), seal.get(place..place.saturating_add(8)))
}

/// Whether no index signed twice for these two seals: they are by two leaves of the top key; or by one lower key, which
/// was signed once, and by two of its leaves.
fn are_apart(one: &[u8], other: &[u8]) -> bool {
    let (first, second) = (leaves(one), leaves(other));
    let is_one_key = one.get(..low_place(one)) == other.get(..low_place(other));
    first.0 != second.0 || (is_one_key && first.1 != second.1)
}

/// Whether a key that was drawn, or was not, may be drawn again and seals.
pub fn draws_again(
    alloc: Global,
    left: &mut MemShelf,
    key: &[u8],
    first: &Said,
) -> Result<bool, AllocError>
    requires home { IsHome (shelf_of left.old) }
{
    let again = answer(alloc, left, &DRAW)?;
    let sealed = answer(alloc, left, &SEAL)?;
    let is_drawn = again.status == 8 || (again.status == 0 && first.status != 0);
    Ok(is_drawn && is_good(alloc, key, &sealed, SEAL.1)?)
}

/// Whether the next seal is good, and so is the first, where there is one, by other indices.
pub fn seals_again(
    alloc: Global,
    left: &mut MemShelf,
    key: &[u8],
    first: &Said,
) -> Result<bool, AllocError>
    requires home { IsHome (shelf_of left.old) }
{
    let next = answer(alloc, left, &AGAIN)?;
    let is_first = first.status != 0
        || (are_apart(&first.bytes, &next.bytes) && is_good(alloc, key, first, SEAL.1)?);
    Ok(is_first && is_good(alloc, key, &next, AGAIN.1)?)
}

/// Lets a disk stand as the record of a key's used indices.
fn put_used(shelf: &mut MemShelf, dir: &'static str, disk: MemDisk) -> Result<(), AllocError>
    requires home { IsHome (shelf_of shelf.old) }
    ensures home { IsHome (shelf_of shelf.new) }
{
    shelf.put(dir, Part::Used, disk)
}

/// Lets all indices of a lower key be used.
fn spend(alloc: Global, shelf: &mut MemShelf, dir: &'static str) -> Result<bool, AllocError>
    requires home { IsHome (shelf_of shelf.old) }
    ensures home { IsHome (shelf_of shelf.new) }
{
    let mut disk = MemDisk::new(alloc);
    let is_written = disk.write_at(0, &[1; 32]).is_ok() && disk.sync().is_ok();
    put_used(shelf, dir, disk)?;
    Ok(is_written)
}

/// The seal that is made where the first lower key is spent and the second one could not be recorded, if it is good.
fn passed_over(alloc: Global, shelf: &mut MemShelf) -> Result<Option<Said>, AllocError>
    requires home { IsHome (shelf_of shelf.old) }
{
    if !begins(alloc, shelf, &[DRAW, SEAL])? || !spend(alloc, shelf, "A.0")? {
        return Ok(None);
    }
    let stop = (("A.1", Part::Peers), 0, 1);
    let (stopped, mut left) = crashed(alloc, shelf, stop, &SEAL)?;
    let sealed = answer(alloc, &mut left, &AGAIN)?;
    let key = drawn_key(alloc)?;
    match stopped.status {
        3 if is_good(alloc, &key, &sealed, AGAIN.1)? => Ok(Some(sealed)),
        _ => Ok(None),
    }
}

#[test]
fn a_lower_key_that_was_not_recorded_is_passed_over(rt: HostRuntime) -> Result<(), Fail> {
    let mut shelf = MemShelf::new(rt.alloc());
    let Some(sealed) = passed_over(rt.alloc(), &mut shelf)? else {
        panic!(rt; "no seal")
    };
    let (top, low) = leaves(&sealed.bytes);
    assert!(rt; top == Some(b"00000002".as_slice()) && low == Some(b"00000000".as_slice()));
    Ok(())
}
