//! The commands without a net of all families, by the words of a command line.

ghost use Rattle.std.specs.Prelude.{IsTrue};
ghost use Rattle.command_words.specs.Seen.{seal_seen};
ghost use Rattle.outcomes.specs.Seen.{seen_outside, seen_sink};
ghost use Rattle.key_directory.specs.Parts.{IsHome};
ghost use Rattle.bec_node.specs.Families.{IsAnswered, SealAnswersOnly, SealComes, beside_seen};
ghost use Rattle.bec_node.specs.Beside.{DoesBeside, RunsBeside};

use crate::alone::run_alone;
use crate::families::{BesideRequest, parse_beside_request};
use crate::seals::{drawn_hss, sealed, unsealed};
use audit_commands::{audit, confirm, one_answer_of_audits};
use bec_bytes::{Sink, Source};
use bec_disk::Shelf;
use command_words::{AuditRequest, SealRequest, WorldRequest};
use key_directory::KeyMaker;
use lms_tree::{KeyTypes, LeafGenerator};
use outcomes::status::OUT_OF_MEMORY;
use outcomes::{Outside, finish};
use rand_core::Rng;
use record_check::Verifier;
use std::alloc::Global;
use watch_command::{Watched, watch};
use world_commands::{tell_demo, tell_world};

/// Does what the words of a command line ask for without a net, of all families, over what stands outside and a sink,
/// and answers the exit status. No part of the shelf may be handed out, and none is afterwards. Words that ask for
/// something over a net are no command here.
///
/// Words that ask for something about seals, audits of keys, views of queries or worlds come to what that comes to;
/// other words come to what [`run_alone`] says. A fault of the store is told only where the shelf counted one, and a
/// fault of a stream only where the source or the sink did.
pub fn run_beside<V: Verifier, H: Shelf, R: Rng, S: Source, K: Sink>(
    verifier: &V,
    alloc: Global,
    words: &[String],
    outside: &mut Outside<H, R, S>,
    out: &mut K,
) -> u8
    requires { IsTrue (H.state outside.old.shelf).tells → IsHome (H.state outside.old.shelf) }
    ensures { RunsBeside words.now
        (seen_outside S.Source H.Shelf R.stream outside.old) (seen_outside S.Source H.Shelf R.stream outside.new)
        (seen_sink K.Sink out.old) (seen_sink K.Sink out.new) result }
{
    let Ok(asked) = parse_beside_request(alloc, words) else {
        return OUT_OF_MEMORY;
    };
    let Some(request) = asked else {
        return run_alone(verifier, alloc, words, outside, out);
    };
    run_asked(verifier, alloc, &request, outside, out)
}

/// Does what a request of a family asks for.
fn run_asked<V: Verifier, H: Shelf, R: Rng, S: Source, K: Sink>(
    verifier: &V,
    alloc: Global,
    request: &BesideRequest,
    outside: &mut Outside<H, R, S>,
    out: &mut K,
) -> u8
    requires { IsTrue (H.state outside.old.shelf).tells → IsHome (H.state outside.old.shelf) }
    ensures { DoesBeside
        (seen_outside S.Source H.Shelf R.stream outside.old) (seen_outside S.Source H.Shelf R.stream outside.new)
        (seen_sink K.Sink out.old) (seen_sink K.Sink out.new) result (beside_seen request.now) }
{
    one_answer_of_audits();
    match request {
        BesideRequest::Seals(request) => {
            let maker = KeyMaker {
                generator: verifier,
                alloc,
            };
            run_seals(&maker, request, outside, out)
        }
        BesideRequest::Audits(AuditRequest::Audit { directory }) => {
            let outcome = audit(verifier, alloc, &mut outside.shelf, directory);
            finish(alloc, out, outcome)
        }
        BesideRequest::Audits(AuditRequest::Confirm) => {
            let outcome = confirm(alloc, &mut outside.input);
            finish(alloc, out, outcome)
        }
        BesideRequest::Views(request) => {
            let what = Watched {
                directory: request.directory,
                text: request.text,
                every: request.every,
            };
            watch(
                verifier,
                alloc,
                &mut outside.shelf,
                &what,
                &mut outside.input,
                out,
            )
        }
        BesideRequest::Worlds(WorldRequest::World { audit }) => {
            tell_world(alloc, *audit, &mut outside.input, out)
        }
        BesideRequest::Worlds(WorldRequest::Demo { number, count }) => {
            tell_demo(alloc, *number, *count, out)
        }
    }
}

/// Does what a request about seals asks for.
fn run_seals<G: LeafGenerator, H: Shelf, R: Rng, S: Source, K: Sink>(
    maker: &KeyMaker<G>,
    request: &SealRequest,
    outside: &mut Outside<H, R, S>,
    out: &mut K,
) -> u8
    requires { IsTrue (H.state outside.old.shelf).tells → IsHome (H.state outside.old.shelf) }
    ensures { IsAnswered (SealComes (seal_seen request.now)) (SealAnswersOnly (seal_seen request.now)
        (seen_outside S.Source H.Shelf R.stream outside.old))
        (seen_outside S.Source H.Shelf R.stream outside.old) (seen_outside S.Source H.Shelf R.stream outside.new)
        (seen_sink K.Sink out.old) (seen_sink K.Sink out.new) result }
{
    let (generator, alloc) = (maker.generator, maker.alloc);
    let Outside {
        shelf,
        random,
        input,
    } = outside;
    match request {
        SealRequest::Hsskey {
            directory,
            height,
            width,
        } => {
            let types = KeyTypes {
                lms: *height,
                ots: *width,
            };
            let outcome = drawn_hss(generator, alloc, shelf, directory, types, random);
            finish(alloc, out, outcome)
        }
        SealRequest::Seal { directory } => {
            let outcome = sealed(generator, alloc, shelf, directory, random, input);
            finish(alloc, out, outcome)
        }
        SealRequest::Unseal { key, signature } => {
            let outcome = unsealed(alloc, key, signature, input);
            finish(alloc, out, outcome)
        }
    }
}
