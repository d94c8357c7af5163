//! What is done over one directory: it is opened, this is done, and it is closed.

ghost use Rattle.std.specs.Prelude.{◌≡◌, IsTrue};
ghost use Rattle.key_directory.specs.Parts.{IsHome};
ghost use Rattle.outcomes.specs.Seen.{seen_outside};
ghost use Rattle.node_commands.specs.Works.{Does, DoesOpen, HasKeyFor, HasShortNote, beside, needs_of};

use crate::commands::apply::apply;
use crate::commands::export::exported;
use crate::commands::heads::replica_heads;
use crate::commands::join::join;
use crate::commands::notes::replica_notes;
use crate::commands::query_store::asked;
use crate::graph_tables::replica_tables;
use bec_bytes::Source;
use bec_disk::{Disk, Shelf};
use key_directory::KeyMaker;
use outcomes::{Outside, Refusal};
use rand_core::Rng;
use record_check::Verifier;
use schema_text::one_schema;
use std::alloc::Global;
use store_directory::{Needs, Opened, close, each_stands, open};

/// What is done over a directory that is open.
#[derive(Clone, Copy, Drop)]
pub enum Work<'a> {
    /// The heads of its store are printed.
    Heads,
    /// The tables of its store are printed, as JSON or as lines.
    Dump {
        /// Whether as JSON.
        json: bool,
    },
    /// Its store is printed as a bundle, or its update stream alone.
    Export {
        /// Whether the update stream alone.
        updates: bool,
    },
    /// What a query asks of its store is printed.
    Query {
        /// The text of the query.
        text: &'a str,
        /// Whether as JSON.
        json: bool,
    },
    /// The notes of the updates of its store are printed.
    Notes,
    /// An update is made of the transaction that is read, by its key, and the update's id is printed.
    Apply {
        /// The note of the update, of at most 256 bytes, or none.
        note: Option<&'a str>,
    },
    /// The heads of its store are joined by an update, by its key, and the update's id is printed, or nothing.
    Join,
}

impl Work<'_> {
    /// What it needs of the directory.
    fn needs(&self) -> Needs
        ensures { result ≡ needs_of self.now }
    {
        match self {
            Work::Apply { .. } | Work::Join => Needs::StoreAndKey,
            _ => Needs::Store,
        }
    }
}

/// Opens a directory, does this over what is open, and closes it again. Its outcome is the text that is printed, or why
/// it is not done: its store is refused before its key, and its key before what is read.
pub fn open_and_work<V: Verifier, H: Shelf, R: Rng, S: Source>(
    maker: &KeyMaker<V>,
    directory: &str,
    work: &Work<'_>,
    outside: &mut Outside<H, R, S>,
) -> Result<Vec<u8>, Refusal>
    requires home { IsTrue (H.state outside.old.shelf).tells → IsHome (H.state outside.old.shelf) }
    requires short { HasShortNote work.now }
    ensures { Does work.now directory.now (seen_outside S.Source H.Shelf R.stream outside.old)
        (seen_outside S.Source H.Shelf R.stream outside.new) result }
{
    one_schema();
    let Outside {
        shelf,
        random,
        input,
    } = outside;
    let mut opened = open(maker.generator, maker.alloc, shelf, directory, work.needs())?;
    let outcome = do_work(maker.alloc, &mut opened, work, random, input);
    close(shelf, directory, opened);
    outcome
}

/// The same over what is open.
fn do_work<D: Disk, R: Rng, S: Source>(
    alloc: Global,
    opened: &mut Opened<D>,
    work: &Work<'_>,
    random: &mut R,
    input: &mut S,
) -> Result<Vec<u8>, Refusal>
    requires key { HasKeyFor (needs_of work.now) opened.old.key }
    requires short { HasShortNote work.now }
    ensures { DoesOpen work.now (beside S.left S.faults R.stream input.old random.old)
        (beside S.left S.faults R.stream input.new random.new)
        opened.old.store opened.old.key opened.new.store opened.new.key result }
{
    each_stands(&opened.store.replica);
    match work {
        Work::Heads => Ok(replica_heads(alloc, &opened.store.replica)?),
        Work::Dump { json } => Ok(replica_tables(alloc, &opened.store.replica, *json)?),
        Work::Export { updates } => Ok(exported(alloc, &opened.store.replica, *updates)?),
        Work::Query { text, json } => asked(alloc, &opened.store.replica, text, *json),
        Work::Notes => Ok(replica_notes(alloc, &opened.store.replica)?),
        Work::Apply { note } => match &mut opened.key {
            Some(key) => apply(alloc, &mut opened.store.replica, key, *note, random, input),
            None => Err(Refusal::NoKey),
        },
        Work::Join => match &mut opened.key {
            Some(key) => join(alloc, &mut opened.store.replica, key, random),
            None => Err(Refusal::NoKey),
        },
    }
}
