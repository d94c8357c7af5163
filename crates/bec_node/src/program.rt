ghost use Rattle.std.specs.Prelude.{IsTrue};
ghost use Rattle.command_words.specs.Seen.{net_seen};
ghost use Rattle.outcomes.specs.Seen.{seen_outside, seen_sink};
ghost use Rattle.key_directory.specs.Parts.{IsHome};
ghost use Rattle.bec_node.specs.Run.{AsksForSome, DoesOver, Leaves, RunsOver, seen_net};

use crate::beside::run_beside;
use bec_bytes::{Sink, Source};
use bec_disk::Shelf;
use bec_links::Net;
use command_words::{NetRequest, parse_net_request};
use net_commands::{Service, serve, sync};
use outcomes::status::OUT_OF_MEMORY;
use outcomes::{Outside, Refusal, Reply, end};
use rand_core::Rng;
use record_check::ManyThreads;
use std::alloc::Global;
use std::sync::Wait;
use std::thread::Threads;

/// Does what the words of a command line ask for, over what stands outside, a net of links and a sink, and answers the
/// exit status. No part of the shelf may be handed out, and none is afterwards; nor is a link of the net.
///
/// Words that ask for something over a net come to what that comes to; other words come to what [`run_beside`] says,
/// and leave the net as it was. `sync` meets the node at an address, and `serve` meets those that dial; what they come
/// to is told of the net's next links, of what the parts of the directory read as, and of the sessions that were held.
/// Where the shelf or the net failed or memory ran out, that comes in its place. A fault of the store is told only
/// where the shelf counted one, and a fault of a stream only where the source, the net or the sink did. `sync` and
/// `serve` wait for other nodes, and no other command waits.
pub fn run<T: Threads + Wait + Sync, H: Shelf, N: Net, R: Rng, S: Source, K: Sink>(
    rt: &T,
    alloc: Global,
    words: &[String],
    outside: &mut Outside<H, R, S>,
    net: &mut N,
    out: &mut K,
) -> u8
where
    H::D: Send,
    requires { IsTrue (H.state outside.old.shelf).tells → IsHome (H.state outside.old.shelf) }
    ensures runs { RunsOver words.now
        (seen_outside S.Source H.Shelf R.stream outside.old) (seen_outside S.Source H.Shelf R.stream outside.new)
        (seen_net N.Net net.old) (seen_net N.Net net.new)
        (seen_sink K.Sink out.old) (seen_sink K.Sink out.new) result }
    ensures leaves { Leaves
        (seen_outside S.Source H.Shelf R.stream outside.old) (seen_outside S.Source H.Shelf R.stream outside.new)
        (seen_net N.Net net.old) (seen_net N.Net net.new)
        (seen_sink K.Sink out.old) (seen_sink K.Sink out.new) result }
    ensures home { IsTrue (H.state outside.old.shelf).tells → IsHome (H.state outside.new.shelf) }
{
    let Ok(asked) = parse_net_request(alloc, words) else {
        return OUT_OF_MEMORY;
    };
    let Some(request) = asked else {
        let verifier = ManyThreads::new(rt);
        return run_beside(&verifier, alloc, words, outside, out);
    };
    let told = meet_others(rt, alloc, &request, &mut outside.shelf, net);
    end(alloc, out, told)
}

/// What a request of a net comes to.
fn meet_others<T: Threads + Wait + Sync, H: Shelf, N: Net>(
    rt: &T,
    alloc: Global,
    request: &NetRequest,
    shelf: &mut H,
    net: &mut N,
) -> Result<Reply, Refusal>
where
    H::D: Send,
    requires home { IsTrue (H.state shelf.old).tells → IsHome (H.state shelf.old) }
    requires some { AsksForSome (net_seen request.now) }
    ensures { DoesOver (net_seen request.now) (H.state shelf.old) (H.state shelf.new) (N.state net.old)
        (N.state net.new) (H.faults shelf.old) (H.faults shelf.new) (N.faults net.old) (N.faults net.new) result }
{
    match *request {
        NetRequest::Sync { directory, address } => {
            sync(rt, alloc, shelf, net, directory, address)
        }
        NetRequest::Serve {
            directory,
            address,
            sessions,
        } => {
            let service = Service {
                directory,
                address,
                sessions,
            };
            serve(rt, alloc, shelf, net, &service)
        }
    }
}
