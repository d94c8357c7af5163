//! A request that looks at a store, done and said.

ghost use Rattle.std.specs.Prelude.{IsTrue};
ghost use Rattle.command_words.specs.Seen.{look_seen};
ghost use Rattle.key_directory.specs.Parts.{IsHome};
ghost use Rattle.outcomes.specs.Seen.{seen_outside, seen_sink};
ghost use Rattle.front.specs.Front.{Looks};

use crate::ended::Ended;
use bec_bytes::{Sink, Source};
use bec_disk::Shelf;
use command_words::LookRequest;
use key_directory::KeyMaker;
use look_commands::{lacks_one, look, status_with};
use outcomes::{Outside, finish};
use rand_core::Rng;
use record_check::Verifier;
use std::alloc::Global;

/// Does what a request asks for that looks at a store, and says what it comes to.
pub(crate) fn looked<V: Verifier, H: Shelf, R: Rng, S: Source, K: Sink>(
    verifier: &V,
    alloc: Global,
    request: &LookRequest,
    outside: &mut Outside<H, R, S>,
    out: &mut K,
) -> Ended
    requires { IsTrue (H.state outside.old.shelf).tells → IsHome (H.state outside.old.shelf) }
    ensures { Looks (look_seen request.now)
        (seen_outside S.Source H.Shelf R.stream outside.old) (seen_outside S.Source H.Shelf R.stream outside.new)
        (seen_sink K.Sink out.old) (seen_sink K.Sink out.new) result.status }
{
    let maker = KeyMaker {
        generator: verifier,
        alloc,
    };
    let mut beside = Vec::new(alloc);
    let outcome = look(&maker, request, outside, &mut beside);
    let lacks = lacks_one(request, &outcome);
    let status = status_with(lacks, finish(alloc, out, outcome));
    Ended { status, beside }
}
