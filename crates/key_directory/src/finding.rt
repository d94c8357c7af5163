//! Parts that are found, or made where there is none.

ghost use Rattle.std.specs.Prelude.{◌≡◌, ◌≢◌, IsTrue, IfOk, OnErr};
ghost use Rattle.bec_bytes.specs.Causes.{HasCause};
ghost use Rattle.bec_disk.specs.Shelf.{out};
ghost use Rattle.bec_disk.specs.Slot.{slot};
ghost use Rattle.key_directory.specs.Parts.{HandsOutAny, MayMakeAny};

use bec_disk::{DiskFault, Part, Shelf};

/// Hands a part out that is in its place, or makes it where there is none. Where the making failed, the part may stand
/// there with nothing in it.
pub fn find_or_make<H: Shelf>(shelf: &mut H, dir: &str, part: Part) -> Result<H::D, DiskFault>
    requires { IsTrue (H.state shelf.old).tells → (H.state shelf.old).parts (slot dir.now part) ≢ out }
    ensures hands { IfOk result (λ disk. HandsOutAny (H.state shelf.old) (slot dir.now part) (H.D.state disk)
        (H.state shelf.new)) }
    ensures clean { IfOk result (λ disk. H.D.faults disk ≡ 0) }
    ensures may_make { OnErr result (MayMakeAny (H.state shelf.old) (slot dir.now part) (H.state shelf.new)) }
    ensures cause { HasCause (H.faults shelf.old) (H.faults shelf.new) result }
{
    match shelf.find(dir, part)? {
        Some(disk) => Ok(disk),
        None => shelf.make(dir, part),
    }
}
