//! What is known as sessions over a store begin.

ghost use Rattle.std.specs.Prelude.{◌≡◌, ◌≢◌, ◌≤◌, IfErr, IfOk, IsTrue};
ghost use Rattle.bec_disk.specs.declared.part.Part.TheVariants.{Peers as PeersPart};
ghost use Rattle.bec_disk.specs.Shelf.{out};
ghost use Rattle.peer_memory.specs.Payload.{Reads};
ghost use Rattle.key_directory.specs.Parts.{part_in};
ghost use Rattle.store_directory.specs.Remembering.{KeepsPeers, memory_in};
ghost use Rattle.outcomes.specs.Comes.{IsDiskRefusal};

use bec_disk::Shelf;
use outcomes::Refusal;
use peer_memory::Peers;
use std::alloc::Global;
use store_directory::peers_of;
use update_model::DbRule;

/// What is known as sessions over a store begin.
#[derive(Drop)]
pub(crate) struct Known {
    /// The rule of the store's schema.
    pub(crate) rule: DbRule,
    /// The peers that are remembered in its directory.
    pub(crate) peers: Peers,
}

/// What is known over a store of this rule. The part Peers of its directory is at most read, and put back.
pub(crate) fn known_of<H: Shelf>(
    alloc: Global,
    shelf: &mut H,
    directory: &str,
    rule: &DbRule,
) -> Result<Known, Refusal>
    requires { IsTrue (H.state shelf.old).tells → part_in (H.state shelf.old) directory.now PeersPart ≢ out }
    ensures rule { IfOk result (λ known. known.rule ≡ rule.now) }
    ensures reads { IsTrue (H.state shelf.old).tells
        → IfOk result (λ known. Reads (memory_in (H.state shelf.old) directory.now) known.peers) }
    ensures keeps { KeepsPeers directory.now (H.state shelf.old) (H.state shelf.new) }
    ensures same { IsTrue (H.state shelf.old).tells
        → memory_in (H.state shelf.new) directory.now ≡ memory_in (H.state shelf.old) directory.now }
    ensures later { H.faults shelf.old ≤ H.faults shelf.new }
    ensures failed { IfErr result (IsDiskRefusal (H.faults shelf.old) (H.faults shelf.new)) }
{
    let peers = peers_of(alloc, shelf, directory)?;
    let rule = rule.copy(alloc)?;
    Ok(Known { rule, peers })
}
