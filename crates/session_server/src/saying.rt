//! Writing what a session says.

ghost use Rattle.std.specs.Prelude.{◌≡◌, ◌<◌, ◌≤◌, All, filter_map, length, map, slice_get};
ghost use Rattle.session_rules.specs.Pair.{frames_of};
ghost use Rattle.session_rules.specs.State.{Item};
ghost use Rattle.sync_session.specs.Kept.{out_of};
ghost use Rattle.update_codec.specs.Parts.{entry_of};
ghost use Rattle.update_codec.specs.declared.limits.TheConstants.{UPDATE_LIMIT};
ghost use Rattle.shared_replica.specs.Entries.{updates_of};
ghost use Rattle.link_frames.specs.Saying.{HasCause, Says};
ghost use Rattle.session_server.specs.Talks.{IsQuiet, IsStill};

use bec_disk::Disk;
use bec_links::Link;
use link_frames::{Halt, say_hello, say_item, say_turn};
use shared_replica::{Acted, Pass, Shared};
use std::alloc::Global;
use std::sync::Wait;
use sync_session::Out;
use update_model::ByteList;

/// Says what a step handed out: the Hello, the updates, the Turn. They are read at positions that the pass has seen.
pub(crate) fn say<R: Wait, K: Link, D: Disk>(
    rt: &R,
    alloc: Global,
    shared: &Shared<D>,
    pass: Pass<D>,
    link: &mut K,
    out: &Out,
) -> (Pass<D>, Result<(), Halt>)
    requires lock { pass.lock ≡ shared.now.lock }
    requires seen { All (λ p. p < length (updates_of pass.seen)) out.now.send }
    ensures still { IsStill pass result.0 }
    ensures quiet { IsQuiet pass result.0 }
    ensures said { Says (K.held link.old) (K.held link.new) result.1
        (frames_of (out_of (map entry_of (updates_of pass.seen)) out.now)) }
    ensures left { K.left link.new ≡ K.left link.old }
    ensures cause { HasCause (K.faults link.old) (K.faults link.new) result.1 }
{
    if let Err(halt) = say_hello(alloc, link, &out.hello) {
        return (pass, Err(halt));
    }
    let (pass, told) = say_updates(rt, alloc, shared, pass, link, out.send.as_slice());
    if let Err(halt) = told {
        return (pass, Err(halt));
    }
    let told = say_turn(alloc, link, &out.turn);
    (pass, told)
}

/// Says the updates at these positions. They are fetched piece by piece, each piece in a turn of its own, and are said
/// outside of any turn.
fn say_updates<R: Wait, K: Link, D: Disk>(
    rt: &R,
    alloc: Global,
    shared: &Shared<D>,
    pass: Pass<D>,
    link: &mut K,
    positions: &[u32],
) -> (Pass<D>, Result<(), Halt>)
    requires lock { pass.lock ≡ shared.now.lock }
    requires seen { All (λ p. p < length (updates_of pass.seen)) positions.now }
    ensures still { IsStill pass result.0 }
    ensures quiet { IsQuiet pass result.0 }
    ensures said { Says (K.held link.old) (K.held link.new) result.1
        (map Item (filter_map (slice_get (map entry_of (updates_of pass.seen))) positions.now)) }
    ensures left { K.left link.new ≡ K.left link.old }
    ensures cause { HasCause (K.faults link.old) (K.faults link.new) result.1 }
{
    let mut pass = pass;
    let mut said = 0;
    'pieces: while said < positions.len() {
        let Acted { pass: next, answer } = shared.fetch_some(rt, alloc, pass, &positions[said..]);
        pass = next;
        let Ok(piece) = answer else {
            return (pass, Err(Halt::Memory));
        };
        if let Err(halt) = say_piece(alloc, link, piece.as_slice()) {
            return (pass, Err(halt));
        }
        said += piece.len();
    }
    (pass, Ok(()))
}

/// Says these updates.
fn say_piece<K: Link>(alloc: Global, link: &mut K, piece: &[ByteList]) -> Result<(), Halt>
    requires { All (λ u. length u ≤ UPDATE_LIMIT) piece.now }
    ensures said { Says (K.held link.old) (K.held link.new) result (map Item (map entry_of piece.now)) }
    ensures left { K.left link.new ≡ K.left link.old }
    ensures cause { HasCause (K.faults link.old) (K.faults link.new) result }
{
    'updates: for update in piece {
        if let Err(halt) = say_item(alloc, link, update.as_slice()) {
            return Err(halt);
        }
    }
    Ok(())
}
