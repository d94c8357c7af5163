//! The command `serve DIR ADDR --sessions N`: a session with each of the nodes that dial.

ghost use Rattle.std.specs.Prelude.{◌≡◌, ◌≢◌, ◌<◌, IfOk, IsErrOf, IsTrue, Ok, OnOk, true};
ghost use Rattle.bec_disk.specs.declared.part.Part.TheVariants.{Peers as PeersPart};
ghost use Rattle.bec_disk.specs.Shelf.{out};
ghost use Rattle.net_commands.specs.Meetings.{RemembersAll, ServesStore};
ghost use Rattle.net_commands.specs.OpenServing.{ConcludesAll, HasFailed, KeepsSessions, ServesOpen, ServesPeersOpen};
ghost use Rattle.key_directory.specs.Parts.{IsHome, part_in};

use crate::known::{Known, known_of};
use crate::words::{has_status, serve_status, serve_text};
use bec_disk::{Disk, Shelf};
use bec_links::Net;
use outcomes::status::{DONE, OUT_OF_MEMORY};
use outcomes::{Refusal, Reply};
use peer_memory::Peers;
use record_check::ManyThreads;
use replica::Replica;
use row_check::Luhn;
use schema_text::one_schema;
use session_server::{Common, Ending, Served, ServedAll, ServedList};
use shared_replica::Shared;
use std::alloc::{AllocError, Global};
use std::sync::Wait;
use std::thread::Threads;
use store_directory::{Needs, OpenStore, Opened, close, each_stands, open, settle, write_memory};

/// The directory of a store, the address at which it is served, and over how many sessions.
#[derive(Drop)]
pub struct Service<'a> {
    /// The directory.
    pub directory: &'a str,
    /// The address.
    pub address: &'a str,
    /// How many sessions there are.
    pub sessions: u32,
}

/// Serves a store at an address, and tells how each session ended.
pub fn serve<T: Threads + Wait + Sync, H: Shelf, N: Net>(
    rt: &T,
    alloc: Global,
    shelf: &mut H,
    net: &mut N,
    service: &Service<'_>,
) -> Result<Reply, Refusal>
where
    H::D: Send,
    requires home { IsTrue (H.state shelf.old).tells → IsHome (H.state shelf.old) }
    requires some { 0 < service.now.sessions }
    ensures { ServesStore service.now.directory.now service.now.sessions (H.state shelf.old) (H.state shelf.new)
        (N.state net.old) (N.state net.new) (H.faults shelf.old) (H.faults shelf.new) (N.faults net.old)
        (N.faults net.new) result }
{
    one_schema();
    let verifier = ManyThreads::new(rt);
    let opened = open(&verifier, alloc, shelf, service.directory, Needs::Store)?;
    let Opened { store, key } = opened;
    let OpenStore { schema, replica } = store;
    let (replica, told) = serve_open(rt, alloc, shelf, net, service, replica);
    let store = OpenStore { schema, replica };
    close(shelf, service.directory, Opened { store, key });
    told
}

/// The same over the store, which is open and comes back.
fn serve_open<T: Threads + Wait + Sync, H: Shelf, N: Net>(
    rt: &T,
    alloc: Global,
    shelf: &mut H,
    net: &mut N,
    service: &Service<'_>,
    replica: Replica<H::D, Luhn, Luhn>,
) -> (Replica<H::D, Luhn, Luhn>, Result<Reply, Refusal>)
where
    H::D: Send,
    requires peers_in { IsTrue (H.state shelf.old).tells
        → part_in (H.state shelf.old) service.now.directory.now PeersPart ≢ out }
    requires some { 0 < service.now.sessions }
    ensures { ServesOpen service.now.directory.now service.now.sessions (H.state shelf.old) (H.state shelf.new)
        (N.state net.old) (N.state net.new) (H.faults shelf.old) (H.faults shelf.new) (N.faults net.old)
        (N.faults net.new) replica result.0 result.1 }
{
    each_stands(&replica);
    let known = match known_of(alloc, shelf, service.directory, replica.schema().rule()) {
        Ok(known) => known,
        Err(refusal) => return (replica, Err(refusal)),
    };
    let (mut replica, met) = serve_peers(rt, alloc, net, &known, service, replica);
    each_stands(&replica);
    let met = match met {
        Ok(met) => met,
        Err(_) => return (replica, Err(Refusal::Memory)),
    };
    let Known { peers, .. } = known;
    let told = conclude_all(alloc, shelf, service.directory, &mut replica, peers, &met);
    each_stands(&replica);
    (replica, told)
}

/// The sessions that were held, and whether the net failed before all of them were.
#[derive(Drop)]
struct Met {
    /// The sessions, in the order of acceptance.
    sessions: ServedList,
    /// Whether the net failed.
    net_failed: bool,
}

/// Serves the peers of a replica, which comes back. The one refusal is want of memory.
fn serve_peers<T: Threads + Wait + Sync, N: Net, D: Disk + Send>(
    rt: &T,
    alloc: Global,
    net: &mut N,
    known: &Known,
    service: &Service<'_>,
    replica: Replica<D, Luhn, Luhn>,
) -> (Replica<D, Luhn, Luhn>, Result<Met, AllocError>)
    requires rule { known.now.rule ≡ replica.history.schema.rule }
    requires some { 0 < service.now.sessions }
    ensures { ServesPeersOpen known.now.peers service.now.sessions (N.state net.old) (N.state net.new)
        (N.faults net.old) (N.faults net.new) replica result.0 result.1 }
{
    let (shared, pass) = match Shared::new(alloc, replica) {
        Ok(both) => both,
        Err(refused) => return (refused.back, Err(AllocError)),
    };
    let common = Common {
        alloc,
        shared: &shared,
        rule: &known.rule,
        peers: &known.peers,
    };
    let all = session_server::serve(rt, &common, net, pass, service.address, service.sessions);
    let ServedAll {
        pass,
        sessions,
        net_failed,
        memory,
    } = all;
    let replica = shared.end(rt, pass);
    if memory || has_status(OUT_OF_MEMORY, sessions.as_slice()) {
        return (replica, Err(AllocError));
    }
    let met = Met {
        sessions,
        net_failed,
    };
    (replica, Ok(met))
}

/// Tells how the sessions ended. After those that are done, the directory remembers what their peers held; that its
/// disk failed then is told besides.
fn conclude_all<H: Shelf>(
    alloc: Global,
    shelf: &mut H,
    directory: &str,
    replica: &mut Replica<H::D, Luhn, Luhn>,
    peers: Peers,
    met: &Met,
) -> Result<Reply, Refusal>
    requires { IsTrue (H.state shelf.old).tells → part_in (H.state shelf.old) directory.now PeersPart ≢ out }
    ensures { ConcludesAll directory.now (H.state shelf.old) (H.state shelf.new) (H.faults shelf.old)
        (H.faults shelf.new) replica.old replica.new peers met.now result }
{
    let sessions = met.sessions.as_slice();
    let kept = keep_sessions(alloc, shelf, directory, replica, peers, sessions);
    let store_failed = has_store_failed(kept)?;
    Ok(Reply {
        text: serve_text(alloc, sessions, store_failed, met.net_failed)?,
        status: serve_status(sessions, store_failed, met.net_failed),
    })
}

/// Whether a disk failed while something was kept. The error is that memory ran out, and no disk failed.
fn has_store_failed(kept: Result<(), Refusal>) -> Result<bool, AllocError>
    ensures told { IfOk result (HasFailed kept) }
    ensures failed { IsErrOf kept Refusal.StoreFault → result ≡ Ok true }
{
    match kept {
        Ok(()) => Ok(false),
        Err(Refusal::StoreFault) => Ok(true),
        Err(_) => Err(AllocError),
    }
}

/// Settles the log, and where a session is done keeps what is to be remembered of the peers.
fn keep_sessions<H: Shelf>(
    alloc: Global,
    shelf: &mut H,
    directory: &str,
    replica: &mut Replica<H::D, Luhn, Luhn>,
    peers: Peers,
    sessions: &[Served],
) -> Result<(), Refusal>
    requires { IsTrue (H.state shelf.old).tells → part_in (H.state shelf.old) directory.now PeersPart ≢ out }
    ensures { KeepsSessions directory.now (H.state shelf.old) (H.state shelf.new) (H.faults shelf.old)
        (H.faults shelf.new) replica.old replica.new peers sessions.now result }
{
    settle(alloc, replica)?;
    if !has_status(DONE, sessions) {
        return Ok(());
    }
    let mut peers = peers;
    remember_all(alloc, &mut peers, sessions)?;
    let payload = peers.payload(alloc)?;
    match write_memory(shelf, directory, &payload) {
        Ok(()) => Ok(()),
        Err(_fault) => Err(Refusal::StoreFault),
    }
}

/// Remembers what is to be remembered of each peer, in the order of the sessions.
fn remember_all(alloc: Global, peers: &mut Peers, sessions: &[Served]) -> Result<(), AllocError>
    ensures { OnOk result (RemembersAll peers.old sessions.now peers.new) }
{
    for served in sessions {
        if let (Ending::Done, Some(node)) = (served.ending, served.peer) {
            peers.remember(alloc, node, served.heads.as_slice())?;
        }
    }
    Ok(())
}
