ghost use Rattle.std.specs.Prelude.{◌≡◌, ◌+◌, ◌≤◌, ◌<◌, ◌^◌, ◌∷◌, ◌++◌, [], List, IsTrue, length, drop, IfOk, OnOk};
ghost use Rattle.std.specs.Prelude.{IsErrOf};
ghost use Rattle.byteorder.specs.Endian.{big_bytes};
ghost use Rattle.bec_bytes.specs.Causes.{HasCause, Rose};
ghost use Rattle.bec_disk.specs.Disk.{IsSameDisk, IsSettled, LeavesOnly};
ghost use Rattle.bec_disk.specs.Gated.{IsOldOrNew, IsShut, IsShutOrSame, gated_of, whole_of};

use crate::disk::Disk;
use crate::disk_error::DiskError;
use crate::disk_fault::DiskFault;
use crate::synced::{cut_synced, write_synced};
use byteorder::{BigEndian, ByteOrder};
use std::alloc::Global;
use update_model::ByteList;

/// What a gated part stands for: a gate byte, a length of four bytes with the high byte first, and
/// a payload that counts only while the gate is not 0.
#[derive(Drop)]
pub enum Gated {
    /// There are fewer than five bytes, or the gate is 0.
    Absent,
    /// The gate is not 0, and the length does not fit the part's size.
    Damaged,
    /// The gate is not 0, and this payload of the stated length follows.
    Whole(ByteList),
}

/// What the part stands for. `DiskFault` comes where a call of the disk failed, and `Memory` where
/// there was none for the payload.
pub fn read_gated<D: Disk>(alloc: Global, disk: &mut D) -> Result<Gated, DiskError>
    ensures value { IsTrue (D.state disk.old).tells → IfOk result (λ gated. gated ≡ gated_of (D.state disk.old).seen) }
    ensures same { D.state disk.new ≡ D.state disk.old }
    ensures later { D.faults disk.old ≤ D.faults disk.new }
    ensures failed { IsErrOf result DiskError.DiskFault → Rose (D.faults disk.old) (D.faults disk.new) }
{
    let len = disk.len()?;
    if len < 5 {
        return Ok(Gated::Absent);
    }
    let mut head = [0; 5];
    disk.read(0, &mut head)?;
    if head[0] == 0 {
        return Ok(Gated::Absent);
    }
    let size = BigEndian::read_u32(&head[1..]);
    if len != 5 + u64::from(size) {
        return Ok(Gated::Damaged);
    }
    Ok(Gated::Whole(read_payload(alloc, disk, size)?))
}

/// The bytes behind the first five.
fn read_payload<D: Disk>(alloc: Global, disk: &mut D, size: u32) -> Result<ByteList, DiskError>
    requires { IsTrue (D.state disk.old).tells → length (D.state disk.old).seen ≡ 5 + size }
    ensures value { IsTrue (D.state disk.old).tells → IfOk result (λ payload. payload ≡ drop 5 (D.state disk.old).seen) }
    ensures same { D.state disk.new ≡ D.state disk.old }
    ensures later { D.faults disk.old ≤ D.faults disk.new }
    ensures failed { IsErrOf result DiskError.DiskFault → Rose (D.faults disk.old) (D.faults disk.new) }
{
    let mut payload = vec![in alloc; 0; size as usize]?;
    disk.read(5, &mut payload)?;
    Ok(ByteList::from_vec(payload))
}

/// Puts a payload in the place of what the part has, and syncs. Of a part that was settled, a crash
/// at any moment of it leaves the part absent, whole with this payload, or standing for what it
/// stood for before.
pub fn write_gated<D: Disk>(disk: &mut D, payload: &[u8]) -> Result<(), DiskFault>
    requires { length payload.now < 2 ^ 32 }
    ensures disk { IsSameDisk (D.state disk.old) (D.state disk.new) }
    ensures written { IsTrue (D.state disk.old).tells → OnOk result ((D.state disk.new).seen ≡ whole_of payload.now) }
    ensures settled { IsTrue (D.state disk.old).tells → OnOk result (IsSettled (D.state disk.new)) }
    ensures any_moment { (IsTrue (D.state disk.old).tells → IsSettled (D.state disk.old))
        → LeavesOnly (D.state disk.old) (D.state disk.new) (IsOldOrNew (D.state disk.old).seen payload.now) }
    ensures cause { HasCause (D.faults disk.old) (D.faults disk.new) result }
{
    close_gate(disk)?;
    cut_synced(disk, 0)?;
    write_synced(disk, 0, &[0])?;
    fill(disk, payload)?;
    write_synced(disk, 0, &[1])
}

/// Writes 0 for a gate that is open.
fn close_gate<D: Disk>(disk: &mut D) -> Result<(), DiskFault>
    ensures disk { IsSameDisk (D.state disk.old) (D.state disk.new) }
    ensures shut { IsTrue (D.state disk.old).tells → OnOk result (IsShut (D.state disk.new).seen) }
    ensures settled { (IsTrue (D.state disk.old).tells → IsSettled (D.state disk.old))
        → IsTrue (D.state disk.old).tells → OnOk result (IsSettled (D.state disk.new)) }
    ensures any_moment { (IsTrue (D.state disk.old).tells → IsSettled (D.state disk.old))
        → LeavesOnly (D.state disk.old) (D.state disk.new) (IsShutOrSame (D.state disk.old).seen) }
    ensures cause { HasCause (D.faults disk.old) (D.faults disk.new) result }
{
    if disk.len()? == 0 {
        return Ok(());
    }
    let mut gate = [0];
    disk.read(0, &mut gate)?;
    if gate[0] == 0 {
        return Ok(());
    }
    write_synced(disk, 0, &[0])
}

/// Writes the length and the payload behind a gate that is shut, and syncs.
fn fill<D: Disk>(disk: &mut D, payload: &[u8]) -> Result<(), DiskFault>
    requires few { length payload.now < 2 ^ 32 }
    requires shut { IsTrue (D.state disk.old).tells → (D.state disk.old).seen ≡ 0 ∷ [] }
    requires settled { IsTrue (D.state disk.old).tells → IsSettled (D.state disk.old) }
    ensures written { IsTrue (D.state disk.old).tells → OnOk result
        ((D.state disk.new).seen ≡ 0 ∷ big_bytes 4 (length payload.now) ++ payload.now) }
    ensures settled { IsTrue (D.state disk.old).tells → OnOk result (IsSettled (D.state disk.new)) }
    ensures any_moment { LeavesOnly (D.state disk.old) (D.state disk.new) IsShut }
    ensures cause { HasCause (D.faults disk.old) (D.faults disk.new) result }
{
    let mut size = [0; 4];
    BigEndian::write_u32(&mut size, payload.len() as u32);
    disk.write_at(1, &size)?;
    disk.write_at(5, payload)?;
    disk.sync()
}
