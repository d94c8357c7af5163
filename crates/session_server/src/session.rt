ghost use Rattle.std.specs.Prelude.{◌≡◌, ◌≤◌, [], IfSome, length};
ghost use Rattle.std.specs.List.Sorted.{IsStrictlySortedBy};
ghost use Rattle.session_rules.specs.declared.limits.TheConstants.{MAX_NEEDS};
ghost use Rattle.update_model.specs.Entry.{id_cmp};
ghost use Rattle.shared_replica.specs.Sessions.{IsRuledBy};
ghost use Rattle.session_server.specs.Recalling.{recalled as recalled_by};
ghost use Rattle.session_server.specs.Sessions.{IsSession};
ghost use Rattle.session_server.specs.Talks.{Concludes, IsToKeep};

use crate::talk::{Side, Talk, begin, go_through};
use crate::{Common, Ending, Served};
use bec_disk::Disk;
use bec_links::Link;
use link_frames::{Halt, say_hello};
use peer_memory::Peers;
use session_rules::Role;
use shared_replica::Pass;
use std::alloc::Global;
use std::sync::Wait;
use std::thread::Threads;
use sync_session::Session;
use update_model::{IdList, UpdateId};

/// Runs a session over a link, from its first frame to its end.
///
/// The rule is that of the replica's schema. An initiator begins with what is remembered under `name`, the name of its
/// peer, and with nothing where there is none; a responder with what is remembered under the node of the peer's Hello.
///
/// The session is one by the rules of sessions over the frames that the link gave, and over growing fronts of what the
/// pass has seen then. It ends `Done`, `Peer` or `Full` by those rules, once all that was to be said is on the link;
/// `Store` where an act met a fault of the disk besides; `Cut` where the link ended first; `Broken` only where the link
/// counted a fault. No act of the replica takes the link.
pub fn run_session<R: Threads + Wait, K: Link, D: Disk>(
    rt: &R,
    common: &Common<'_, D>,
    pass: Pass<D>,
    link: &mut K,
    role: Role,
    name: Option<[u8; 32]>,
) -> (Pass<D>, Served)
    requires lock { pass.lock ≡ common.now.shared.now.lock }
    requires rule { IsRuledBy pass.seen common.now.rule.now }
    ensures { IsSession common.now.rule.now role common.now.peers.now name pass result.0 (K.left link.old)
        (K.left link.new) (K.held link.old) (K.held link.new) (K.faults link.old) (K.faults link.new) result.1 }
{
    let alloc = common.alloc;
    let recalled = recalled_of(common.peers, role, &name);
    match begin(rt, alloc, common.shared, pass, role, recalled) {
        Err(pass) => (pass, Served::never_begun(alloc)),
        Ok((talk, out)) => match say_hello(alloc, link, &out.hello) {
            Ok(()) => {
                let (talk, ending) = go_through(rt, &Side { common, role }, link, talk);
                concluded(alloc, talk, ending)
            }
            Err(Halt::Broken) => concluded(alloc, talk, Ending::Broken),
            Err(Halt::Memory) => concluded(alloc, talk, Ending::Memory),
        },
    }
}

/// What is remembered of a peer as a session begins: an initiator knows its peer by name, and a responder does not yet.
fn recalled_of<'a>(peers: &'a Peers, role: Role, name: &Option<[u8; 32]>) -> &'a [UpdateId]
    ensures value { result.now ≡ recalled_by role peers.now name.now [] }
    ensures few { length result.now ≤ MAX_NEEDS }
    ensures rising { IsStrictlySortedBy id_cmp result.now }
{
    match (role, name) {
        (Role::Initiator, Some(name)) => peers.heads_of(name),
        _ => &[],
    }
}

/// What a session came to that ended so.
fn concluded<D: Disk>(alloc: Global, talk: Talk<D>, ending: Ending) -> (Pass<D>, Served)
    ensures pass { result.0 ≡ talk.pass }
    ensures served { Concludes talk.session ending result.1 }
{
    let Talk { pass, session, .. } = talk;
    let (ending, heads) = match remembered(alloc, &session, ending) {
        Some(heads) => (ending, heads),
        None => (Ending::Memory, IdList::from_vec(Vec::new(alloc))),
    };
    let served = Served {
        ending,
        gained: session.gained(),
        turns: session.turns(),
        peer: session.peer(),
        heads,
    };
    (pass, served)
}

/// The ids to remember of the peer: none unless the session is done. `None` where memory runs out.
fn remembered(alloc: Global, session: &Session, ending: Ending) -> Option<IdList>
    ensures { IfSome result (λ heads. IsToKeep ending session.now heads) }
{
    match ending {
        Ending::Done => session.remembered(alloc).ok(),
        _ => Some(IdList::from_vec(Vec::new(alloc))),
    }
}
