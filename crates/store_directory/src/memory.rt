//! What a directory remembers of peers: the part Peers, behind its gate. It is a hint, and never refused.

ghost use Rattle.std.specs.Prelude.{◌≡◌, ◌≢◌, ◌≤◌, ◌<◌, ◌^◌, [], ◌∷◌, IsTrue, IfOk, OnOk, IsErrOf, length};
ghost use Rattle.bec_bytes.specs.Causes.{HasCause, Rose};
ghost use Rattle.bec_disk.specs.declared.part.Part.TheVariants.{Peers};
ghost use Rattle.bec_disk.specs.Shelf.{out};
ghost use Rattle.store_directory.specs.Memory.{behind, remembered_in};
ghost use Rattle.key_directory.specs.Parts.{IsUntouched, KeepsAllBut, part_in, reading};

use bec_disk::{DiskError, DiskFault, Gated, Part, Shelf, read_gated, write_gated};
use key_directory::find_or_make;
use std::alloc::Global;
use update_model::ByteList;

/// What stands behind the gate of the part Peers of a directory; nothing where the part is not there, absent or
/// damaged. It writes nothing.
pub fn read_memory<H: Shelf>(alloc: Global, shelf: &mut H, dir: &str) -> Result<ByteList, DiskError>
    requires { IsTrue (H.state shelf.old).tells → part_in (H.state shelf.old) dir.now Peers ≢ out }
    ensures value { IsTrue (H.state shelf.old).tells
        → IfOk result (λ payload. payload ≡ remembered_in (reading (part_in (H.state shelf.old) dir.now Peers))) }
    ensures tells { (H.state shelf.new).tells ≡ (H.state shelf.old).tells }
    ensures untouched { IsTrue (H.state shelf.old).tells → IsUntouched (part_in (H.state shelf.old) dir.now Peers)
        (part_in (H.state shelf.new) dir.now Peers) }
    ensures others { IsTrue (H.state shelf.old).tells → KeepsAllBut (Peers ∷ []) dir.now (H.state shelf.old)
        (H.state shelf.new) }
    ensures later { H.faults shelf.old ≤ H.faults shelf.new }
    ensures failed { IsErrOf result DiskError.DiskFault → Rose (H.faults shelf.old) (H.faults shelf.new) }
{
    let Some(mut peers) = shelf.find(dir, Part::Peers)? else {
        return Ok(ByteList::from_vec(Vec::new(alloc)));
    };
    let read = read_gated(alloc, &mut peers);
    shelf.put_back(peers);
    let gated = read?;
    Ok(payload_of(alloc, gated))
}

/// What stands behind a gate that is open, or nothing.
fn payload_of(alloc: Global, gated: Gated) -> ByteList
    ensures { result ≡ behind gated }
{
    match gated {
        Gated::Whole(payload) => payload,
        Gated::Absent | Gated::Damaged => ByteList::from_vec(Vec::new(alloc)),
    }
}

/// Puts a payload behind the gate of the part Peers of a directory. A part that is not there is made. Where it failed,
/// the part may be absent.
pub fn write_memory<H: Shelf>(shelf: &mut H, dir: &str, payload: &[u8]) -> Result<(), DiskFault>
    requires in_place { IsTrue (H.state shelf.old).tells → part_in (H.state shelf.old) dir.now Peers ≢ out }
    requires fits { length payload.now < 2 ^ 32 }
    ensures written { IsTrue (H.state shelf.old).tells
        → OnOk result (remembered_in (reading (part_in (H.state shelf.new) dir.now Peers)) ≡ payload.now) }
    ensures tells { (H.state shelf.new).tells ≡ (H.state shelf.old).tells }
    ensures in_place { IsTrue (H.state shelf.old).tells → part_in (H.state shelf.new) dir.now Peers ≢ out }
    ensures others { IsTrue (H.state shelf.old).tells → KeepsAllBut (Peers ∷ []) dir.now (H.state shelf.old)
        (H.state shelf.new) }
    ensures later { H.faults shelf.old ≤ H.faults shelf.new }
    ensures cause { HasCause (H.faults shelf.old) (H.faults shelf.new) result }
{
    let mut peers = find_or_make(shelf, dir, Part::Peers)?;
    let written = write_gated(&mut peers, payload);
    shelf.put_back(peers);
    written
}
