ghost use Rattle.std.specs.Prelude.{◌≡◌, ◌+◌, ◌≤◌, IsTrue, OnOk, length, take};
ghost use Rattle.bec_bytes.specs.Causes.{HasCause};
ghost use Rattle.bec_disk.specs.Disk.{LeavesOnly, IsSettled, overwritten};
ghost use Rattle.bec_disk.specs.Images.{IsTornFrom, IsCutFrom};

use crate::disk::Disk;
use crate::disk_fault::DiskFault;

/// Writes `bytes` from `at` on, at most the length, and syncs. A crash at any moment of it leaves
/// what one before it might have left, but for the range written.
pub fn write_synced<D: Disk>(disk: &mut D, at: u64, bytes: &[u8]) -> Result<(), DiskFault>
    requires { IsTrue (D.state disk.old).tells → at ≤ length (D.state disk.old).seen }
    ensures written { IsTrue (D.state disk.old).tells → OnOk result
        ((D.state disk.new).seen ≡ overwritten (D.state disk.old).seen at bytes.now) }
    ensures settled { IsTrue (D.state disk.old).tells → OnOk result (IsSettled (D.state disk.new)) }
    ensures any_moment { LeavesOnly (D.state disk.old) (D.state disk.new)
        (IsTornFrom (D.state disk.old).now at (at + length bytes.now)) }
    ensures cause { HasCause (D.faults disk.old) (D.faults disk.new) result }
{
    disk.write_at(at, bytes)?;
    disk.sync()
}

/// Leaves the first `len` bytes, at most the length, and syncs. A crash at any moment of it leaves
/// a front, no shorter than `len`, of what one before it might have left.
pub fn cut_synced<D: Disk>(disk: &mut D, len: u64) -> Result<(), DiskFault>
    requires { IsTrue (D.state disk.old).tells → len ≤ length (D.state disk.old).seen }
    ensures cut { IsTrue (D.state disk.old).tells
        → OnOk result ((D.state disk.new).seen ≡ take len (D.state disk.old).seen) }
    ensures settled { IsTrue (D.state disk.old).tells → OnOk result (IsSettled (D.state disk.new)) }
    ensures any_moment { LeavesOnly (D.state disk.old) (D.state disk.new) (IsCutFrom (D.state disk.old).now len) }
    ensures cause { HasCause (D.faults disk.old) (D.faults disk.new) result }
{
    disk.cut(len)?;
    disk.sync()
}
