//! A watch over the store of a directory.

ghost use Rattle.std.specs.Prelude.{◌≡◌, ◌≤◌, IfErr, IfOk, IsTrue};
ghost use Rattle.key_directory.specs.Parts.{IsHome};
ghost use Rattle.watch_command.specs.Ending.{stop_of, streams};
ghost use Rattle.watch_command.specs.Refusals.{not_watched};
ghost use Rattle.watch_command.specs.Runs.{WatchesIn, WatchesOpen, WatchesShelf};
ghost use Rattle.watch_command.specs.Steps.{RefusesQuery, WritesShown};
ghost use Rattle.watch_command.specs.Watching.{Opens};

use crate::blocks::block;
use crate::following::follow;
use crate::stop::{Stop, end};
use bec_bytes::{Sink, Source, write_all_of};
use bec_disk::{Disk, Shelf};
use live_view::{AtLeast, LiveView, WatchError, When};
use outcomes::Refusal;
use query::{no_fault, one_fault, one_query, read_query};
use record_check::Verifier;
use replica::Replica;
use row_check::{Luhn, Native};
use schema_text::one_schema;
use std::alloc::Global;
use store_directory::{Needs, close, each_stands, one_store, open, store_or_not};

/// What is watched of a store.
#[derive(Drop)]
pub struct Watched<'a> {
    /// The directory of the store.
    pub directory: &'a str,
    /// The text of a query, which has to be named.
    pub text: &'a str,
    /// How many lines a change has at least that is told before the end.
    pub every: u64,
}

/// Watches the store of a directory while the records of a stream are taken into it one by one, and answers the exit
/// status.
///
/// The store is opened, then the text is read as a query, which has to be named, and its answer is written as the first
/// block. Then each record is read, checked and committed by itself; known ones are passed over. Behind it comes the
/// block of the change, where it has as many lines as are wanted. At the end of the stream the block of what is left is
/// written, unless there is none. What refuses a record, the store or the query ends it: its line stands behind the
/// blocks so far, and the store keeps what was taken. A store that is refused, a text that is no query and a query that
/// is not named are told exactly where they stand, unless memory ran out or the shelf failed, and then nothing is read.
pub fn watch<V: Verifier, H: Shelf, S: Source, K: Sink>(
    verifier: &V,
    alloc: Global,
    shelf: &mut H,
    what: &Watched<'_>,
    input: &mut S,
    out: &mut K,
) -> u8
    requires { IsTrue (H.state shelf.old).tells → IsHome (H.state shelf.old) }
    ensures { WatchesIn (input.new ≡ input.old) (record { text = what.now.text.now; every = what.now.every })
        what.now.directory.now
        (H.state shelf.old) (H.state shelf.new) (H.faults shelf.old) (H.faults shelf.new)
        (streams S.left S.faults K.held K.faults input.old out.old)
        (streams S.left S.faults K.held K.faults input.new out.new) result }
{
    one_store();
    store_or_not();
    one_query();
    one_fault();
    no_fault();
    let ended = watch_shelf(verifier, alloc, shelf, what, input, out);
    end(alloc, out, ended)
}

/// The same up to its end, whose lines are not written.
fn watch_shelf<V: Verifier, H: Shelf, S: Source, K: Sink>(
    verifier: &V,
    alloc: Global,
    shelf: &mut H,
    what: &Watched<'_>,
    input: &mut S,
    out: &mut K,
) -> Result<(), Stop>
    requires { IsTrue (H.state shelf.old).tells → IsHome (H.state shelf.old) }
    ensures { WatchesShelf (input.new ≡ input.old) (record { text = what.now.text.now; every = what.now.every })
        what.now.directory.now
        (H.state shelf.old) (H.state shelf.new) (H.faults shelf.old) (H.faults shelf.new)
        (streams S.left S.faults K.held K.faults input.old out.old)
        (streams S.left S.faults K.held K.faults input.new out.new) (stop_of result) }
{
    one_schema();
    let mut opened = open(verifier, alloc, shelf, what.directory, Needs::Store)?;
    let ended = watch_open(alloc, &mut opened.store.replica, what, input, out);
    close(shelf, what.directory, opened);
    ended
}

/// The same over the store, which is open.
fn watch_open<D: Disk, S: Source, K: Sink>(
    alloc: Global,
    replica: &mut Replica<D, Luhn, Luhn>,
    what: &Watched<'_>,
    input: &mut S,
    out: &mut K,
) -> Result<(), Stop>
    ensures { WatchesOpen (input.new ≡ input.old) (record { text = what.now.text.now; every = what.now.every })
        replica.old replica.new
        (streams S.left S.faults K.held K.faults input.old out.old) (streams S.left S.faults K.held K.faults input.new
        out.new) (stop_of result) }
{
    each_stands(replica);
    let mut view = open_view(alloc, replica, what)?;
    write_shown(alloc, &view, out)?;
    let ended = follow(alloc, replica, &mut view, input, out);
    each_stands(replica);
    ended
}

/// A view of the query that a text is, which shows its answer over a store.
fn open_view<D: Disk>(
    alloc: Global,
    replica: &Replica<D, Luhn, Luhn>,
    what: &Watched<'_>,
) -> Result<LiveView<AtLeast, AtLeast>, Refusal>
    ensures opens { IfOk result (λ view. Opens replica.now.history.schema replica.now.history.members
        (record { text = what.now.text.now; every = what.now.every }) view) }
    ensures refused { IfErr result (λ why. RefusesQuery replica.now.history.schema what.now.text.now why) }
{
    let native: Native<Luhn, Luhn> = Native::new(Luhn);
    let query = read_query(alloc, replica.schema(), what.text.as_bytes())?;
    let when = When::new(what.every, AtLeast);
    match live_view::watch(
        alloc,
        &native,
        replica.schema(),
        replica.tables(),
        query,
        when,
    ) {
        Ok(view) => Ok(view),
        Err(error) => Err(not_watched(error)),
    }
}

/// The refusal of a query that is not watched.
fn not_watched(error: WatchError) -> Refusal
    ensures { result ≡ not_watched error }
{
    match error {
        WatchError::NotNamed => Refusal::QueryNotNamed,
        WatchError::Memory => Refusal::Memory,
    }
}

/// Writes the block of what is shown before the first record.
fn write_shown<K: Sink>(
    alloc: Global,
    view: &LiveView<AtLeast, AtLeast>,
    out: &mut K,
) -> Result<(), Stop>
    ensures written { WritesShown view.now (record { held = K.held out.old; faults = K.faults out.old })
        (record { held = K.held out.new; faults = K.faults out.new }) (stop_of result) }
    ensures later { K.faults out.old ≤ K.faults out.new }
{
    let text = block(alloc, &[], view.shown(), 0)?;
    write_all_of(out, &text)?;
    Ok(())
}
