//! Taking updates into the store of a directory.

ghost use Rattle.std.specs.Prelude.{◌≡◌, ◌≤◌, ◌↔◌, ◌++◌, All, IsTrue, OnOk, map};
ghost use Rattle.key_directory.specs.Parts.{IsHome};
ghost use Rattle.update_check.specs.Signed.{IsChecked, IsUnder};
ghost use Rattle.update_codec.specs.Parts.{body_of, entry_of};
ghost use Rattle.update_model.specs.Graph.{IsClosed};
ghost use Rattle.import_commands.specs.Refusals.{not_committed};
ghost use Rattle.import_commands.specs.Taking.{IsOfDatabase, TakesInto, TakesOpen, gained_text};

use crate::contents::Contents;
use bec_disk::{Disk, Shelf};
use itoa::Buffer;
use key_directory::KeyMaker;
use outcomes::Refusal;
use record_check::Verifier;
use replica::Replica;
use row_check::Luhn;
use schema::Schema;
use schema_text::one_schema;
use session_rules::PeerFault;
use std::alloc::{AllocError, Global};
use store_directory::{Needs, close, each_stands, open};
use update_check::{Checked, CommitFault};
use update_model::DbRule;

/// Takes updates into the store of a directory, and answers these lines with how many it gained behind them.
pub(crate) fn take_into<V: Verifier, H: Shelf>(
    maker: &KeyMaker<V>,
    shelf: &mut H,
    dir: &str,
    contents: Contents,
    lines: Vec<u8>,
) -> Result<Vec<u8>, Refusal>
    requires home { IsTrue (H.state shelf.old).tells → IsHome (H.state shelf.old) }
    requires closed { IsClosed (map entry_of contents.updates.items) }
    ensures { TakesInto (record { text = contents.text.items; updates = contents.updates.items }) lines.items dir.now
        (H.state shelf.old) (H.state shelf.new) (H.faults shelf.old) (H.faults shelf.new) result }
{
    one_schema();
    let mut opened = open(maker.generator, maker.alloc, shelf, dir, Needs::Store)?;
    let outcome = take_open(maker.alloc, &mut opened.store.replica, contents, lines);
    close(shelf, dir, opened);
    outcome
}

/// The same over the store, which is open.
fn take_open<D: Disk>(
    alloc: Global,
    replica: &mut Replica<D, Luhn, Luhn>,
    contents: Contents,
    mut lines: Vec<u8>,
) -> Result<Vec<u8>, Refusal>
    requires { IsClosed (map entry_of contents.updates.items) }
    ensures { TakesOpen (record { text = contents.text.items; updates = contents.updates.items }) lines.items
        replica.old replica.new result }
{
    each_stands(replica);
    if !is_of_database(replica.schema(), &contents) {
        return Err(Refusal::Peer(PeerFault::WrongDatabase));
    }
    let committed = replica.commit(alloc, contents.updates);
    each_stands(replica);
    match committed {
        Ok(committed) => {
            push_gained(&mut lines, committed.added.as_slice().len())?;
            Ok(lines)
        }
        Err(fault) => Err(not_committed(fault)),
    }
}

/// Whether updates are of the database of a schema: the text of theirs is its own, and each is of its database, by a
/// listed author. The signature of each was verified when it became a `Checked`.
fn is_of_database(schema: &Schema, contents: &Contents) -> bool
    ensures is { IsTrue result ↔ IsOfDatabase schema.now (record {
      text = contents.now.text.items;
      updates = contents.now.updates.items;
    }) }
    ensures checked { IsTrue result → All (IsChecked schema.now.rule) contents.now.updates.items }
{
    if schema.text() != contents.text.as_slice() {
        return false;
    }
    are_under(schema.rule(), contents.updates.as_slice())
}

/// Whether each of these updates is of the rule's database and its author is listed there.
fn are_under(rule: &DbRule, updates: &[Checked]) -> bool
    ensures is { IsTrue result ↔ All (λ bytes. IsUnder rule.now (body_of bytes)) updates.now }
    ensures checked { IsTrue result → All (IsChecked rule.now) updates.now }
{
    for update in updates {
        update.author(); // who signed it
        if !update.is_under(rule) {
            return false;
        }
    }
    true
}

/// Adds the line for so many updates that were added.
fn push_gained(lines: &mut Vec<u8>, count: usize) -> Result<(), AllocError>
    ensures { OnOk result (lines.new.items ≡ lines.old.items ++ gained_text count) }
{
    let mut buffer = Buffer::new();
    lines.extend_from_slice(b"gained ")?;
    lines.extend_from_slice(buffer.format(count).as_bytes())?;
    lines.extend_from_slice(b"\n")
}

/// Why updates were not committed.
fn not_committed(fault: CommitFault) -> Refusal
    ensures { result ≡ not_committed fault }
{
    match fault {
        CommitFault::Full => Refusal::Full,
        CommitFault::DiskFault => Refusal::StoreFault,
        CommitFault::Memory => Refusal::Memory,
    }
}
