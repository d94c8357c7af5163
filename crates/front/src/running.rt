ghost use Rattle.std.specs.Prelude.{◌≡◌, IsTrue};
ghost use Rattle.bec_node.specs.Run.{Leaves, RunsOver, seen_net};
ghost use Rattle.key_directory.specs.Parts.{IsHome};
ghost use Rattle.outcomes.specs.Seen.{seen_outside, seen_sink};
ghost use Rattle.schema_verdict.specs.declared.status.TheConstants.{OUT_OF_MEMORY};
ghost use Rattle.front.specs.Front.{FrontRuns, IsRunCommand};

use crate::brought::brought;
use crate::ended::Ended;
use crate::looked::looked;
use bec_bytes::{Sink, Source};
use bec_disk::Shelf;
use bec_links::Net;
use command_words::{
    nothing_beside_imports, nothing_beside_looks, parse_import_request, parse_look_request,
};
use outcomes::Outside;
use outcomes::status::OUT_OF_MEMORY;
use rand_core::Rng;
use record_check::ManyThreads;
use std::alloc::Global;
use std::sync::Wait;
use std::thread::Threads;

/// Does what the words of a command line ask for, over what stands outside, a net of links and a sink, and answers how
/// it ended. No part of the shelf may be handed out, and none is afterwards; nor is a link of the net.
///
/// Words that ask for something that looks at a store or brings updates into a directory come to that, and leave the
/// net as it was; all other words come to what `bec_node::run` says of them, and so do all words that it knows. A fault of the store is told only where the
/// shelf counted one, and a fault of a stream only where the source, the net or the sink did.
pub fn run<T: Threads + Wait + Sync, H: Shelf, N: Net, R: Rng, S: Source, K: Sink>(
    rt: &T,
    alloc: Global,
    words: &[String],
    outside: &mut Outside<H, R, S>,
    net: &mut N,
    out: &mut K,
) -> Ended
where
    H::D: Send,
    requires { IsTrue (H.state outside.old.shelf).tells → IsHome (H.state outside.old.shelf) }
    ensures runs { FrontRuns words.now
        (seen_outside S.Source H.Shelf R.stream outside.old) (seen_outside S.Source H.Shelf R.stream outside.new)
        (seen_net N.Net net.old) (seen_net N.Net net.new)
        (seen_sink K.Sink out.old) (seen_sink K.Sink out.new) result.status }
    ensures known { IsRunCommand words.now → RunsOver words.now
        (seen_outside S.Source H.Shelf R.stream outside.old) (seen_outside S.Source H.Shelf R.stream outside.new)
        (seen_net N.Net net.old) (seen_net N.Net net.new)
        (seen_sink K.Sink out.old) (seen_sink K.Sink out.new) result.status }
    ensures leaves { Leaves
        (seen_outside S.Source H.Shelf R.stream outside.old) (seen_outside S.Source H.Shelf R.stream outside.new)
        (seen_net N.Net net.old) (seen_net N.Net net.new)
        (seen_sink K.Sink out.old) (seen_sink K.Sink out.new) result.status }
    ensures home { IsTrue (H.state outside.old.shelf).tells → IsHome (H.state outside.new.shelf) }
{
    nothing_beside_looks();
    nothing_beside_imports();
    let verifier = ManyThreads::new(rt);
    let Ok(looking) = parse_look_request(alloc, words) else {
        return unread(alloc);
    };
    if let Some(request) = looking {
        return looked(&verifier, alloc, &request, outside, out);
    }
    let Ok(bringing) = parse_import_request(alloc, words) else {
        return unread(alloc);
    };
    match bringing {
        Some(request) => brought(&verifier, alloc, &request, outside, out),
        None => {
            let status = bec_node::run(rt, alloc, words, outside, net, out);
            Ended {
                status,
                beside: Vec::new(alloc),
            }
        }
    }
}

/// The end where there is no memory for reading the words.
fn unread(alloc: Global) -> Ended
    ensures { result.status ≡ OUT_OF_MEMORY }
{
    Ended {
        status: OUT_OF_MEMORY,
        beside: Vec::new(alloc),
    }
}
