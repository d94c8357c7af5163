ghost use Rattle.std.specs.Prelude.{◌≡◌, ◌+◌, ◌≤◌, IsTrue, IfOk, OnOk, length, take, drop};
ghost use Rattle.bec_bytes.specs.Causes.{HasCause};
ghost use Rattle.bec_disk.specs.Disk.{DiskState, IsImage, Writes, Cuts, Syncs};

use crate::disk_fault::DiskFault;
use bec_bytes::Counted;

/// Bytes that stay when the program ends, and of which a crash may lose or spoil what was not synced.
///
/// A crash is judged against the last sync that succeeded, or against the handing out where there
/// was none. It leaves a length that the disk has had since then, or one between the least and the
/// greatest of them. A byte that stood there at that sync and in no range written since is as it
/// was, wherever the new length reaches it. Every other byte may be anything. A write or a cut that
/// failed counts as well.
pub trait Disk: Counted {
    /// Whether the disk tells what it has, what it has, and what a crash may leave of it.
    ghost state: { Self → DiskState };

    /// The length in bytes.
    fn len(&mut self) -> Result<u64, DiskFault>
        ensures value { IsTrue (state self.old).tells → IfOk result (λ n. n ≡ length (state self.old).seen) }
        ensures same { state self.new ≡ state self.old }
        ensures cause { HasCause (Self.faults self.old) (Self.faults self.new) result };

    /// Fills `buf` with the bytes from `at` on. The range has to end at or before the length.
    fn read(&mut self, at: u64, buf: &mut [u8]) -> Result<(), DiskFault>
        requires { IsTrue (state self.old).tells → at + length buf.old ≤ length (state self.old).seen }
        ensures bytes { IsTrue (state self.old).tells
            → OnOk result (buf.new ≡ take (length buf.old) (drop at (state self.old).seen)) }
        ensures same { state self.new ≡ state self.old }
        ensures cause { HasCause (Self.faults self.old) (Self.faults self.new) result };

    /// Puts `bytes` in the place of those from `at` on, and makes the disk longer where they end
    /// behind its end. `at` has to be at most the length.
    fn write_at(&mut self, at: u64, bytes: &[u8]) -> Result<(), DiskFault>
        requires { IsTrue (state self.old).tells → at ≤ length (state self.old).seen }
        ensures writes { Writes (state self.old) at bytes.now result (state self.new) }
        ensures cause { HasCause (Self.faults self.old) (Self.faults self.new) result };

    /// Leaves the first `len` bytes. `len` has to be at most the length.
    fn cut(&mut self, len: u64) -> Result<(), DiskFault>
        requires { IsTrue (state self.old).tells → len ≤ length (state self.old).seen }
        ensures cuts { Cuts (state self.old) len result (state self.new) }
        ensures cause { HasCause (Self.faults self.old) (Self.faults self.new) result };

    /// Makes what was written and cut stay through a crash.
    fn sync(&mut self) -> Result<(), DiskFault>
        ensures syncs { Syncs (state self.old) result (state self.new) }
        ensures cause { HasCause (Self.faults self.old) (Self.faults self.new) result };

    /// What the disk reads as is one of the images that a crash may leave now.
    ghost reads: { (disk : Self) → IsTrue (state disk).tells → IsImage (state disk).now (state disk).seen };
}
