//! Looking at the store of a directory, or at a bundle.

ghost use Rattle.std.specs.Prelude.{◌≡◌, ◌⊎◌, Err, IsTrue, option_map};
ghost use Rattle.command_words.specs.Seen.{look_seen, question_seen};
ghost use Rattle.key_directory.specs.Parts.{IsHome};
ghost use Rattle.outcomes.specs.Comes.{ReadsShelf};
ghost use Rattle.outcomes.specs.Outcome.{ComesTo};
ghost use Rattle.outcomes.specs.Rules.{nodes_of, rules_of};
ghost use Rattle.outcomes.specs.Seen.{seen_outside};
ghost use Rattle.outcomes.specs.StoreAnswers.{ReadsStore};
ghost use Rattle.outcomes.specs.declared.refusal.Refusal.TheVariants.{Memory};
ghost use Rattle.store_directory.specs.Standing.{Stands};
ghost use Rattle.tuple_state.specs.State.{IsStateOf};
ghost use Rattle.look_commands.specs.Bundles.{BundleShown};
ghost use Rattle.look_commands.specs.Looks.{LookComes, LooksAt, ShowsMembers, ShowsStore};

use crate::answers::answer_text;
use crate::bundle::read_bundle;
use crate::differing::difference;
use crate::keys::public_line;
use crate::members::{Members, members_of};
use crate::records::records_of;
use crate::texts::{listing_text, page_of, status_of, style_of};
use bec_bytes::Source;
use bec_disk::{Disk, Shelf};
use command_words::{LookRequest, Question};
use key_directory::KeyMaker;
use outcomes::{Outside, Refusal};
use rand_core::Rng;
use record_check::Verifier;
use replica::Replica;
use row_check::{Luhn, Native};
use schema_text::one_schema;
use std::alloc::Global;
use store_directory::{Needs, close, each_stands, open};

/// Does what a request asks for: answers the text that is printed, or why it is refused. What goes to standard error is
/// added beside.
pub fn look<V: Verifier, H: Shelf, R: Rng, S: Source>(
    maker: &KeyMaker<V>,
    request: &LookRequest,
    outside: &mut Outside<H, R, S>,
    beside: &mut Vec<u8>,
) -> Result<Vec<u8>, Refusal>
    requires { IsTrue (H.state outside.old.shelf).tells → IsHome (H.state outside.old.shelf) }
    ensures { LookComes (look_seen request.now) (seen_outside S.Source H.Shelf R.stream outside.old)
        (seen_outside S.Source H.Shelf R.stream outside.new) result }
{
    match request {
        LookRequest::One {
            directory,
            question,
        } => place_text(maker, question, *directory, outside, beside),
        LookRequest::Both {
            first,
            second,
            full,
            json,
        } => difference(maker, style_of(*full, *json), *first, *second, outside),
        LookRequest::Key { directory } => public_line(maker, &mut outside.shelf, directory),
    }
}

/// What is asked of the store of a directory, or without one of the bundle that is read.
fn place_text<V: Verifier, H: Shelf, R: Rng, S: Source>(
    maker: &KeyMaker<V>,
    question: &Question,
    directory: Option<&str>,
    outside: &mut Outside<H, R, S>,
    beside: &mut Vec<u8>,
) -> Result<Vec<u8>, Refusal>
    requires { IsTrue (H.state outside.old.shelf).tells → IsHome (H.state outside.old.shelf) }
    ensures { LooksAt (question_seen question.now) (option_map (λ d. d.now) directory.entry)
        (seen_outside S.Source H.Shelf R.stream outside.old) (seen_outside S.Source H.Shelf R.stream outside.new)
        result }
{
    match directory {
        Some(directory) => store_text(maker, question, directory, &mut outside.shelf, beside),
        None => bundle_text(maker.alloc, question, &mut outside.input, beside),
    }
}

/// What is asked of the store of a directory.
fn store_text<V: Verifier, H: Shelf>(
    maker: &KeyMaker<V>,
    question: &Question,
    dir: &str,
    shelf: &mut H,
    beside: &mut Vec<u8>,
) -> Result<Vec<u8>, Refusal>
    requires { IsTrue (H.state shelf.old).tells → IsHome (H.state shelf.old) }
    ensures { ReadsShelf (ReadsStore (ShowsStore (question_seen question.now))) dir.now
        (H.state shelf.old) (H.state shelf.new) (H.faults shelf.old) (H.faults shelf.new) result }
{
    one_schema();
    let opened = open(maker.generator, maker.alloc, shelf, dir, Needs::Store)?;
    let outcome = opened_text(maker.alloc, question, &opened.store.replica, beside);
    close(shelf, dir, opened);
    outcome
}

/// What is asked of a store that is open.
fn opened_text<D: Disk>(
    alloc: Global,
    question: &Question,
    replica: &Replica<D, Luhn, Luhn>,
    beside: &mut Vec<u8>,
) -> Result<Vec<u8>, Refusal>
    ensures stands { Stands replica.now }
    ensures shows { ShowsMembers (question_seen question.now) replica.now.history.schema replica.now.history.members
        result ⊎ (result ≡ Err Memory) }
{
    each_stands(replica);
    let native = Native::new(Luhn);
    shown(alloc, question, members_of(replica, &native), beside)
}

/// What is asked of the bundle that is read.
fn bundle_text<S: Source>(
    alloc: Global,
    question: &Question,
    input: &mut S,
    beside: &mut Vec<u8>,
) -> Result<Vec<u8>, Refusal>
    ensures { ComesTo (BundleShown (ShowsMembers (question_seen question.now))) (S.left input.old) (S.left input.new)
        (S.faults input.old) (S.faults input.new) result }
{
    let native = Native::new(Luhn);
    let bundle = read_bundle(alloc, &native, input)?;
    shown(alloc, question, bundle.members(&native), beside)
}

/// What is asked of members.
fn shown(
    alloc: Global,
    question: &Question,
    members: Members,
    beside: &mut Vec<u8>,
) -> Result<Vec<u8>, Refusal>
    requires { IsStateOf (rules_of members.schema.now) (nodes_of members.graph.now) members.tables.now }
    ensures { ShowsMembers (question_seen question.now) members.entry.schema.now members.entry.graph.now result
        ⊎ (result ≡ Err Memory) }
{
    match question {
        Question::Updates(asked) => Ok(listing_text(alloc, asked, members, beside)?),
        Question::Page => Ok(page_of(alloc, members, beside)?),
        Question::Status => Ok(status_of(alloc, members)?),
        Question::Schema => Ok(Vec::from_slice(alloc, members.schema.text())?),
        Question::Records => Ok(records_of(alloc, members.graph)?),
        Question::Csv(text) => answer_text(alloc, text, members),
    }
}
