//! The commands without a net, by the words of a command line.

ghost use Rattle.std.specs.Prelude.{IsTrue, option_map};
ghost use Rattle.bec_node.specs.RunAlone.{HasShortNote, NamesApart, Comes, Runs};
ghost use Rattle.node_commands.specs.Creating.{DrawsKeyOnly, Inits};
ghost use Rattle.command_words.specs.Requests.{dump, heads};
ghost use Rattle.outcomes.specs.Seen.{seen_outside, seen_sink};
ghost use Rattle.command_words.specs.Seen.{request_seen};
ghost use Rattle.key_directory.specs.Parts.{IsHome};

use bec_bytes::{Sink, Source};
use bec_disk::Shelf;
use command_words::{Request, one_request, parse_request};
use key_directory::KeyMaker;
use lm_ots::OtsType;
use lms_tree::{KeyTypes, LeafGenerator, LmsType};
use node_commands::{
    Work, bundle_tables, init, keygen, merge, one_answer, one_answer_of_makers,
    one_answer_of_merge, one_answer_of_parts, open_and_work, stream_heads, verdict,
};
use outcomes::status::OUT_OF_MEMORY;
use outcomes::{Outside, Refusal, finish, no_command};
use rand_core::Rng;
use record_check::Verifier;
use std::alloc::Global;

/// Does what the words of a command line ask for without a net, over what stands outside and a sink, and answers the
/// exit status. No part of the shelf may be handed out, and none is afterwards. Words that ask for something over a net
/// are no command here.
///
/// Words that ask for something come to an outcome: it is done and prints a text, or it is refused, and why is printed.
/// Each outcome has its cause in the words, in what the source has left and in what the parts of a directory read as;
/// only where the source or the shelf failed, or memory ran out, another one comes in its place. The outcome is written
/// whole, with its status; or the sink failed, and a front of it is written, with the status of a stream fault.
pub fn run_alone<V: Verifier, H: Shelf, R: Rng, S: Source, K: Sink>(
    verifier: &V,
    alloc: Global,
    words: &[String],
    outside: &mut Outside<H, R, S>,
    out: &mut K,
) -> u8
    requires { IsTrue (H.state outside.old.shelf).tells → IsHome (H.state outside.old.shelf) }
    ensures { Runs words.now
        (seen_outside S.Source H.Shelf R.stream outside.old) (seen_outside S.Source H.Shelf R.stream outside.new)
        (seen_sink K.Sink out.old) (seen_sink K.Sink out.new) result }
{
    one_answer();
    one_answer_of_makers();
    one_answer_of_merge();
    one_answer_of_parts();
    one_request();
    let Ok(asked) = parse_request(alloc, words) else {
        return OUT_OF_MEMORY;
    };
    let Some(request) = asked else {
        return no_command(out);
    };
    let outcome = outcome_of(verifier, alloc, &request, outside);
    finish(alloc, out, outcome)
}

/// What a request comes to.
fn outcome_of<V: Verifier, H: Shelf, R: Rng, S: Source>(
    verifier: &V,
    alloc: Global,
    request: &Request,
    outside: &mut Outside<H, R, S>,
) -> Result<Vec<u8>, Refusal>
    requires home { IsTrue (H.state outside.old.shelf).tells → IsHome (H.state outside.old.shelf) }
    requires apart { NamesApart (request_seen request.now) }
    requires short { HasShortNote (request_seen request.now) }
    ensures { Comes (request_seen request.now) (seen_outside S.Source H.Shelf R.stream outside.old)
        (seen_outside S.Source H.Shelf R.stream outside.new) result }
{
    let maker = &KeyMaker {
        generator: verifier,
        alloc,
    };
    match request {
        Request::Heads { directory } => printed_heads(maker, *directory, outside),
        Request::Check => verdict(alloc, &mut outside.input),
        Request::Dump { directory, json } => printed_tables(maker, *directory, *json, outside),
        Request::Init { directory } => made_store(alloc, directory, outside),
        Request::Keygen {
            directory,
            height,
            width,
        } => drawn_key(maker, directory, (*height, *width), outside),
        Request::Apply { directory, note } => {
            open_and_work(maker, directory, &Work::Apply { note: *note }, outside)
        }
        Request::Join { directory } => open_and_work(maker, directory, &Work::Join, outside),
        Request::Export { directory, updates } => {
            let work = Work::Export { updates: *updates };
            open_and_work(maker, directory, &work, outside)
        }
        Request::Query {
            directory,
            text,
            json,
        } => open_and_work(
            maker,
            directory,
            &Work::Query { text, json: *json },
            outside,
        ),
        Request::Merge { first, second } => {
            merge(verifier, alloc, &mut outside.shelf, first, second)
        }
        Request::Notes { directory } => open_and_work(maker, directory, &Work::Notes, outside),
    }
}

/// The heads of the store of a directory, or without one those of the update stream that is read, as they are printed.
fn printed_heads<V: Verifier, H: Shelf, R: Rng, S: Source>(
    maker: &KeyMaker<V>,
    directory: Option<&str>,
    outside: &mut Outside<H, R, S>,
) -> Result<Vec<u8>, Refusal>
    requires home { IsTrue (H.state outside.old.shelf).tells → IsHome (H.state outside.old.shelf) }
    ensures { Comes (heads (option_map (λ d. d.now) directory.entry)) (seen_outside S.Source H.Shelf R.stream
        outside.old)
        (seen_outside S.Source H.Shelf R.stream outside.new) result }
{
    match directory {
        None => stream_heads(maker.alloc, &mut outside.input),
        Some(directory) => open_and_work(maker, directory, &Work::Heads, outside),
    }
}

/// The tables of the store of a directory, or without one those of the bundle that is read, as they are printed.
fn printed_tables<V: Verifier, H: Shelf, R: Rng, S: Source>(
    maker: &KeyMaker<V>,
    directory: Option<&str>,
    json: bool,
    outside: &mut Outside<H, R, S>,
) -> Result<Vec<u8>, Refusal>
    requires home { IsTrue (H.state outside.old.shelf).tells → IsHome (H.state outside.old.shelf) }
    ensures { Comes (dump (option_map (λ d. d.now) directory.entry) json) (seen_outside S.Source H.Shelf R.stream
        outside.old)
        (seen_outside S.Source H.Shelf R.stream outside.new) result }
{
    match directory {
        None => bundle_tables(maker.alloc, &mut outside.input, json),
        Some(directory) => open_and_work(maker, directory, &Work::Dump { json }, outside),
    }
}

/// Makes a store in a directory that has none, of the schema that is read.
fn made_store<H: Shelf, R: Rng, S: Source>(
    alloc: Global,
    directory: &str,
    outside: &mut Outside<H, R, S>,
) -> Result<Vec<u8>, Refusal>
    requires { IsTrue (H.state outside.old.shelf).tells → IsHome (H.state outside.old.shelf) }
    ensures { Inits directory.now (seen_outside S.Source H.Shelf R.stream outside.old)
        (seen_outside S.Source H.Shelf R.stream outside.new) result }
{
    let Outside {
        shelf,
        random,
        input,
    } = outside;
    init(alloc, shelf, directory, random, input)
}

/// Draws a key for a directory that has none. Its tree is of the one type, and its one-time keys of the other.
fn drawn_key<G: LeafGenerator, H: Shelf, R: Rng, S: Source>(
    maker: &KeyMaker<G>,
    directory: &str,
    types: (LmsType, OtsType),
    outside: &mut Outside<H, R, S>,
) -> Result<Vec<u8>, Refusal>
    requires { IsTrue (H.state outside.old.shelf).tells → IsHome (H.state outside.old.shelf) }
    ensures { DrawsKeyOnly types.0 types.1 directory.now (seen_outside S.Source H.Shelf R.stream outside.old)
        (seen_outside S.Source H.Shelf R.stream outside.new) result }
{
    let Outside { shelf, random, .. } = outside;
    let (lms, ots) = types;
    let types = KeyTypes { lms, ots };
    keygen(
        maker.generator,
        maker.alloc,
        shelf,
        directory,
        types,
        random,
    )
}
