//! The command `sync DIR ADDR`: one session with the node that serves at an address.

ghost use Rattle.std.specs.Prelude.{◌≡◌, ◌≢◌, IsTrue};
ghost use Rattle.sha2.specs.Sha256.{sha256};
ghost use Rattle.bec_disk.specs.declared.part.Part.TheVariants.{Peers as PeersPart};
ghost use Rattle.bec_disk.specs.Shelf.{out};
ghost use Rattle.net_commands.specs.Meetings.{SyncsStore};
ghost use Rattle.net_commands.specs.Open.{Concludes, Keeps, MeetsOpen, SyncsOpen};
ghost use Rattle.key_directory.specs.Parts.{IsHome, part_in};

use crate::known::{Known, known_of};
use crate::words::{exit_status, sync_text};
use bec_disk::{Disk, Shelf};
use bec_links::Net;
use outcomes::{Refusal, Reply};
use peer_memory::Peers;
use record_check::ManyThreads;
use replica::Replica;
use row_check::Luhn;
use schema_text::one_schema;
use session_rules::Role;
use session_server::{Common, Ending, Served, run_session};
use sha2::{Digest, Sha256};
use shared_replica::Shared;
use std::alloc::Global;
use std::sync::Wait;
use std::thread::Threads;
use store_directory::{Needs, OpenStore, Opened, close, each_stands, keep_peers, open, settle};

/// The directory of a store, and the address of the node that it meets.
#[derive(Drop)]
struct Meeting<'a> {
    /// The directory.
    directory: &'a str,
    /// The address.
    address: &'a str,
}

/// Meets the node at an address, and tells what the store of a directory gained.
pub fn sync<'a, T: Threads + Wait, H: Shelf, N: Net>(
    rt: &T,
    alloc: Global,
    shelf: &mut H,
    net: &mut N,
    directory: &'a str,
    address: &'a str,
) -> Result<Reply, Refusal>
    requires home { IsTrue (H.state shelf.old).tells → IsHome (H.state shelf.old) }
    ensures { SyncsStore directory.now address.now (H.state shelf.old) (H.state shelf.new) (N.state net.old)
        (N.state net.new) (H.faults shelf.old) (H.faults shelf.new) (N.faults net.old) (N.faults net.new) result }
{
    one_schema();
    let verifier = ManyThreads::new(rt);
    let opened = open(&verifier, alloc, shelf, directory, Needs::Store)?;
    let Opened { store, key } = opened;
    let OpenStore { schema, replica } = store;
    let meeting = Meeting { directory, address };
    let (replica, told) = sync_open(rt, alloc, shelf, net, &meeting, replica);
    let store = OpenStore { schema, replica };
    close(shelf, directory, Opened { store, key });
    told
}

/// The same over the store, which is open and comes back.
fn sync_open<T: Threads + Wait, H: Shelf, N: Net>(
    rt: &T,
    alloc: Global,
    shelf: &mut H,
    net: &mut N,
    meeting: &Meeting<'_>,
    replica: Replica<H::D, Luhn, Luhn>,
) -> (Replica<H::D, Luhn, Luhn>, Result<Reply, Refusal>)
    requires peers_in { IsTrue (H.state shelf.old).tells
        → part_in (H.state shelf.old) meeting.now.directory.now PeersPart ≢ out }
    ensures { SyncsOpen meeting.now.directory.now meeting.now.address.now (H.state shelf.old) (H.state shelf.new)
        (N.state net.old) (N.state net.new) (H.faults shelf.old) (H.faults shelf.new) (N.faults net.old)
        (N.faults net.new) replica result.0 result.1 }
{
    each_stands(&replica);
    let known = match known_of(alloc, shelf, meeting.directory, replica.schema().rule()) {
        Ok(known) => known,
        Err(refusal) => return (replica, Err(refusal)),
    };
    let (mut replica, met) = meet(rt, alloc, net, &known, meeting.address, replica);
    each_stands(&replica);
    let served = match met {
        Ok(served) => served,
        Err(refusal) => return (replica, Err(refusal)),
    };
    let Known { peers, .. } = known;
    let told = conclude(alloc, shelf, meeting, &mut replica, peers, &served);
    each_stands(&replica);
    (replica, told)
}

/// The name under which the node at an address is remembered.
fn name_of(address: &str) -> [u8; 32]
    ensures { result ≡ sha256 address.now }
{
    Sha256::digest(address.as_bytes())
}

/// Dials, and holds a session with the node at the other end. The replica comes back, whatever it comes to; without a
/// session it is what it was.
fn meet<T: Threads + Wait, N: Net, D: Disk>(
    rt: &T,
    alloc: Global,
    net: &mut N,
    known: &Known,
    address: &str,
    replica: Replica<D, Luhn, Luhn>,
) -> (Replica<D, Luhn, Luhn>, Result<Served, Refusal>)
    requires { known.now.rule ≡ replica.history.schema.rule }
    ensures { MeetsOpen known.now.peers (sha256 address.now) (N.state net.old) (N.state net.new) (N.faults net.old)
        (N.faults net.new) replica result.0 result.1 }
{
    let mut link = match net.dial(address) {
        Ok(link) => link,
        Err(_) => return (replica, Err(Refusal::Stream)),
    };
    let (shared, pass) = match Shared::new(alloc, replica) {
        Ok(both) => both,
        Err(refused) => {
            net.put_back(link);
            return (refused.back, Err(Refusal::Memory));
        }
    };
    let common = Common {
        alloc,
        shared: &shared,
        rule: &known.rule,
        peers: &known.peers,
    };
    let name = Some(name_of(address));
    let (pass, served) = run_session(rt, &common, pass, &mut link, Role::Initiator, name);
    net.put_back(link);
    (shared.end(rt, pass), Ok(served))
}

/// Tells what the session came to. After one that is done, the directory remembers what the peer held.
fn conclude<H: Shelf>(
    alloc: Global,
    shelf: &mut H,
    meeting: &Meeting<'_>,
    replica: &mut Replica<H::D, Luhn, Luhn>,
    peers: Peers,
    served: &Served,
) -> Result<Reply, Refusal>
    requires { IsTrue (H.state shelf.old).tells
        → part_in (H.state shelf.old) meeting.now.directory.now PeersPart ≢ out }
    ensures { Concludes meeting.now.directory.now (H.state shelf.old) (H.state shelf.new) (H.faults shelf.old)
        (H.faults shelf.new) replica.old replica.new peers (sha256 meeting.now.address.now) served.now result }
{
    keep(alloc, shelf, meeting, replica, peers, served)?;
    Ok(Reply {
        text: sync_text(alloc, served)?,
        status: exit_status(&served.ending),
    })
}

/// Where a session is done, settles the log of the store, and keeps what is to be remembered of the peer.
fn keep<H: Shelf>(
    alloc: Global,
    shelf: &mut H,
    meeting: &Meeting<'_>,
    replica: &mut Replica<H::D, Luhn, Luhn>,
    peers: Peers,
    served: &Served,
) -> Result<(), Refusal>
    requires { IsTrue (H.state shelf.old).tells
        → part_in (H.state shelf.old) meeting.now.directory.now PeersPart ≢ out }
    ensures { Keeps meeting.now.directory.now (H.state shelf.old) (H.state shelf.new) (H.faults shelf.old)
        (H.faults shelf.new) replica.old replica.new peers (sha256 meeting.now.address.now) served.now result }
{
    match served.ending {
        Ending::Done => {
            settle(alloc, replica)?;
            let name = name_of(meeting.address);
            keep_peers(alloc, shelf, meeting.directory, peers, name, &served.heads)?;
            Ok(())
        }
        Ending::Memory => Err(Refusal::Memory),
        _ => Ok(()),
    }
}
