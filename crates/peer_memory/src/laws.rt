//! Laws of what is remembered. Each function does nothing: its contract is a theorem for callers to cite.

ghost use Rattle.std.specs.Prelude.{◌≡◌, ℕ, List};
ghost use Rattle.peer_memory.specs.declared.peer.Peer.{Peer as AnyPeer};
ghost use Rattle.peer_memory.specs.Payload.{Reads, Spells};

/// What was written is what is read.
pub fn peers_are_read_again()
    ensures { (peers others : List AnyPeer) (bytes : List ℕ) → Spells peers bytes → Reads bytes others
        → others ≡ peers }
{}
