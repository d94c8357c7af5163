//! Writing peers.

ghost use Rattle.std.specs.Prelude.{◌≡◌, ◌++◌, All, OnOk};
ghost use Rattle.std.specs.List.{flat_map};
ghost use Rattle.sync_frames.specs.Payload.{spelled_ids};
ghost use Rattle.peer_memory.specs.Payload.{spelled_peer};
ghost use Rattle.peer_memory.specs.Peers.{IsPeer};

use crate::Peer;
use std::alloc::AllocError;
use update_model::UpdateId;

/// Writes peers one after the other.
pub(crate) fn put_peers(out: &mut Vec<u8>, peers: &[Peer]) -> Result<(), AllocError>
    requires { All IsPeer peers.now }
    ensures { OnOk result (out.new.items ≡ out.old.items ++ flat_map spelled_peer peers.now) }
{
    for peer in peers {
        put_peer(out, peer)?;
    }
    Ok(())
}

/// Writes a peer: the name, and the ids behind their number.
fn put_peer(out: &mut Vec<u8>, peer: &Peer) -> Result<(), AllocError>
    requires { IsPeer peer.now }
    ensures { OnOk result (out.new.items ≡ out.old.items ++ spelled_peer peer.now) }
{
    let heads = peer.heads.as_slice();
    out.extend_from_slice(&peer.name)?;
    out.extend_from_slice(&(heads.len() as u16).to_be_bytes())?;
    put_ids(out, heads)
}

/// Writes ids one after the other.
fn put_ids(out: &mut Vec<u8>, ids: &[UpdateId]) -> Result<(), AllocError>
    ensures { OnOk result (out.new.items ≡ out.old.items ++ spelled_ids ids.now) }
{
    for id in ids {
        out.extend_from_slice(&id.0)?;
    }
    Ok(())
}
