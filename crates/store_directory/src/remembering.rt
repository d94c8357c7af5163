//! What the directory of a store remembers of peers.

ghost use Rattle.std.specs.Prelude.{◌≡◌, ◌≢◌, ◌≤◌, IsTrue, IfOk, OnOk, IsErrOf};
ghost use Rattle.bec_bytes.specs.Causes.{Rose};
ghost use Rattle.bec_disk.specs.Shelf.{out};
ghost use Rattle.bec_disk.specs.declared.part.Part.TheVariants.{Peers as PeersPart};
ghost use Rattle.store_directory.specs.Remembering.{KeepsPeers, RemembersIn, memory_in};
ghost use Rattle.peer_memory.specs.Payload.{Reads};
ghost use Rattle.key_directory.specs.Parts.{IsUntouched, part_in};

use crate::memory::{read_memory, write_memory};
use bec_disk::{DiskError, Shelf};
use peer_memory::{Peers, read_peers};
use std::alloc::Global;
use update_model::IdList;

/// What a directory remembers of peers. Its part Peers is at most read, and put back.
pub fn peers_of<H: Shelf>(alloc: Global, shelf: &mut H, dir: &str) -> Result<Peers, DiskError>
    requires { IsTrue (H.state shelf.old).tells → part_in (H.state shelf.old) dir.now PeersPart ≢ out }
    ensures reads { IsTrue (H.state shelf.old).tells
        → IfOk result (λ peers. Reads (memory_in (H.state shelf.old) dir.now) peers) }
    ensures keeps { KeepsPeers dir.now (H.state shelf.old) (H.state shelf.new) }
    ensures untouched { IsTrue (H.state shelf.old).tells → IsUntouched (part_in (H.state shelf.old) dir.now PeersPart)
        (part_in (H.state shelf.new) dir.now PeersPart) }
    ensures same { IsTrue (H.state shelf.old).tells → memory_in (H.state shelf.new) dir.now ≡ memory_in
        (H.state shelf.old) dir.now }
    ensures later { H.faults shelf.old ≤ H.faults shelf.new }
    ensures failed { IsErrOf result DiskError.DiskFault → Rose (H.faults shelf.old) (H.faults shelf.new) }
{
    let payload = read_memory(alloc, shelf, dir)?;
    Ok(read_peers(alloc, payload.as_slice())?)
}

/// Remembers these ids of a peer in a directory, under the name of the peer, in place of what was remembered under it.
/// At most the part Peers is touched, and put back.
pub fn keep_peers<H: Shelf>(
    alloc: Global,
    shelf: &mut H,
    dir: &str,
    mut peers: Peers,
    name: [u8; 32],
    ids: &IdList,
) -> Result<(), DiskError>
    requires { IsTrue (H.state shelf.old).tells → part_in (H.state shelf.old) dir.now PeersPart ≢ out }
    ensures remembers { IsTrue (H.state shelf.old).tells
        → OnOk result (RemembersIn peers name ids.now (memory_in (H.state shelf.new) dir.now)) }
    ensures keeps { KeepsPeers dir.now (H.state shelf.old) (H.state shelf.new) }
    ensures later { H.faults shelf.old ≤ H.faults shelf.new }
    ensures failed { IsErrOf result DiskError.DiskFault → Rose (H.faults shelf.old) (H.faults shelf.new) }
{
    peers.remember(alloc, name, ids.as_slice())?;
    let payload = peers.payload(alloc)?;
    write_memory(shelf, dir, &payload)?;
    Ok(())
}
