//! The part Peers of a lower key's directory, which holds the top key's signature of that key.

ghost use Rattle.std.specs.Prelude.{◌≡◌, ◌≢◌, ◌<◌, ◌≤◌, ◌^◌, length, IsTrue, IfOk, OnOk, IsErrOf};
ghost use Rattle.bec_bytes.specs.Causes.{HasCause, Rose};
ghost use Rattle.bec_disk.specs.declared.part.Part.TheVariants.{Peers};
ghost use Rattle.bec_disk.specs.Shelf.{out};
ghost use Rattle.key_directory.specs.Parts.{part_in};
ghost use Rattle.hss_directory.specs.Peers.{HasPeers, ReadsPeers, WritesPeers, peers_in};

use bec_disk::{DiskError, DiskFault, Gated, Part, Shelf, read_gated, write_gated};
use key_directory::find_or_make;
use std::alloc::Global;

/// What stands behind the gate of the part Peers of a directory. It writes nothing.
pub(crate) fn read_peers<H: Shelf>(
    alloc: Global,
    shelf: &mut H,
    dir: &str,
) -> Result<Gated, DiskError>
    requires { IsTrue (H.state shelf.old).tells → part_in (H.state shelf.old) dir.now Peers ≢ out }
    ensures value { IsTrue (H.state shelf.old).tells
        → IfOk result (λ gated. gated ≡ peers_in (H.state shelf.old) dir.now) }
    ensures reads { ReadsPeers (H.state shelf.old) dir.now (H.state shelf.new) }
    ensures later { H.faults shelf.old ≤ H.faults shelf.new }
    ensures failed { IsErrOf result DiskError.DiskFault → Rose (H.faults shelf.old) (H.faults shelf.new) }
{
    let Some(mut peers) = shelf.find(dir, Part::Peers)? else {
        return Ok(Gated::Absent);
    };
    let read = read_gated(alloc, &mut peers);
    shelf.put_back(peers);
    read
}

/// Puts a payload behind the gate of the part Peers of a directory. A part that is not there is made.
pub(crate) fn write_peers<H: Shelf>(
    shelf: &mut H,
    dir: &str,
    payload: &[u8],
) -> Result<(), DiskFault>
    requires in_place { IsTrue (H.state shelf.old).tells → part_in (H.state shelf.old) dir.now Peers ≢ out }
    requires fits { length payload.now < 2 ^ 32 }
    ensures writes { WritesPeers payload.now (H.state shelf.old) dir.now (H.state shelf.new) }
    ensures written { IsTrue (H.state shelf.old).tells → OnOk result (HasPeers payload.now (H.state shelf.new) dir.now) }
    ensures cause { HasCause (H.faults shelf.old) (H.faults shelf.new) result }
{
    let mut peers = find_or_make(shelf, dir, Part::Peers)?;
    let written = write_gated(&mut peers, payload);
    shelf.put_back(peers);
    written
}
