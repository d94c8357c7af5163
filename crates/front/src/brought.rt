//! A request that brings updates into a directory, done and said.

ghost use Rattle.std.specs.Prelude.{IsTrue};
ghost use Rattle.command_words.specs.Seen.{import_seen};
ghost use Rattle.key_directory.specs.Parts.{IsHome};
ghost use Rattle.outcomes.specs.Seen.{seen_outside, seen_sink};
ghost use Rattle.front.specs.Front.{Blames, IsBrought};

use crate::ended::Ended;
use bec_bytes::{Sink, Source};
use bec_disk::Shelf;
use command_words::ImportRequest;
use import_commands::bring;
use key_directory::KeyMaker;
use outcomes::{Outside, finish};
use rand_core::Rng;
use record_check::Verifier;
use std::alloc::Global;

/// Does what a request asks for that brings updates into a directory, and says what it comes to.
pub(crate) fn brought<V: Verifier, H: Shelf, R: Rng, S: Source, K: Sink>(
    verifier: &V,
    alloc: Global,
    request: &ImportRequest,
    outside: &mut Outside<H, R, S>,
    out: &mut K,
) -> Ended
    requires { IsTrue (H.state outside.old.shelf).tells → IsHome (H.state outside.old.shelf) }
    ensures brings { IsBrought (import_seen request.now)
        (seen_outside S.Source H.Shelf R.stream outside.old) (seen_outside S.Source H.Shelf R.stream outside.new)
        (seen_sink K.Sink out.old) (seen_sink K.Sink out.new) result.status }
    ensures blames { Blames
        (seen_outside S.Source H.Shelf R.stream outside.old) (seen_outside S.Source H.Shelf R.stream outside.new)
        (seen_sink K.Sink out.old) (seen_sink K.Sink out.new) result.status }
    ensures home { IsTrue (H.state outside.old.shelf).tells → IsHome (H.state outside.new.shelf) }
{
    let maker = KeyMaker {
        generator: verifier,
        alloc,
    };
    let outcome = bring(&maker, request, outside);
    let status = finish(alloc, out, outcome);
    Ended {
        status,
        beside: Vec::new(alloc),
    }
}
