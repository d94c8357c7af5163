ghost use Rattle.std.specs.Prelude.{◌≡◌, ◌++◌, List, ℕ, IfOk, OnOk, filter, map};
ghost use Rattle.update_codec.specs.Parts.{entry_of, id_of};
ghost use Rattle.update_model.specs.Entry.{id_cmp};
ghost use Rattle.update_model.specs.Graph.{IsClosed};
ghost use Rattle.outcomes.specs.OpenStores.{opened_store};
ghost use Rattle.node_commands.specs.Notes.{AreNoted, is_noted, note_line, note_lines, note_text};
ghost use Rattle.node_commands.specs.Shows.{ShowsNotes};

use bec_disk::Disk;
use replica::Replica;
use row_check::Luhn;
use std::alloc::{AllocError, Global};
use std::cmp::Ordering;
use store_directory::each_stands;
use text_words::push_quoted;
use update_check::Checked;
use update_model::Member;

/// The notes of a store, as they are printed.
pub fn replica_notes<D: Disk>(
    alloc: Global,
    replica: &Replica<D, Luhn, Luhn>,
) -> Result<Vec<u8>, AllocError>
    ensures { IfOk result (λ text. ShowsNotes (opened_store replica.now) text.items) }
{
    each_stands(replica);
    let arrived = noted_of(alloc, replica)?;
    let noted = in_order(arrived);
    let text = notes_text(alloc, &noted)?;
    Ok(text)
}

/// The updates of a store whose note is not empty, in the order of arrival.
fn noted_of<D: Disk>(
    alloc: Global,
    replica: &Replica<D, Luhn, Luhn>,
) -> Result<Vec<&Checked>, AllocError>
    ensures { IfOk result (λ noted. map (λ update. update.now) noted.items ≡ filter is_noted
        replica.now.history.members) }
{
    let mut noted = Vec::new(alloc);
    for position in 0..replica.len() {
        let update = replica.update_at(position);
        if !note_of(update).is_empty() {
            noted.push(update)?;
        }
    }
    Ok(noted)
}

/// The note of an update, which is empty where it has none.
pub fn note_of(update: &Checked) -> &[u8]
    ensures { result.now ≡ note_text update.now }
{
    match update.note() {
        Some(note) => note.as_slice(),
        None => &[],
    }
}

/// Puts updates in order of ids. These rise, where the updates are those of a closed list that have a note.
pub fn in_order<'a>(mut noted: Vec<&'a Checked>) -> Vec<&'a Checked>
    ensures { (members : List (List ℕ)) → IsClosed (map entry_of members)
        → map (λ update. update.now) noted.entry.items ≡ filter is_noted members
        → AreNoted members (map (λ update. update.now) result.items) }
{
    noted.sort_unstable_by(|a, b| id_cmp(a, b));
    noted
}

/// The order of the ids of two updates.
fn id_cmp(a: &Checked, b: &Checked) -> Ordering
    ensures { result ≡ id_cmp (id_of a.now) (id_of b.now) }
{
    a.id().cmp(&b.id())
}

/// The lines of the notes of updates.
fn notes_text(alloc: Global, noted: &[&Checked]) -> Result<Vec<u8>, AllocError>
    ensures { IfOk result (λ text. text.items ≡ note_lines (map (λ update. update.now) noted.now)) }
{
    let mut text = Vec::new(alloc);
    for update in noted {
        push_note(&mut text, update)?;
    }
    Ok(text)
}

/// Adds the line of an update's note: its id in lower-case hexadecimal, a space, and the note in quotes.
fn push_note(text: &mut Vec<u8>, update: &Checked) -> Result<(), AllocError>
    ensures { OnOk result (text.new.items ≡ text.old.items ++ note_line update.now) }
{
    let mut id = [0u8; 64];
    let _ = hex::encode_to_slice(update.id().0, &mut id);
    text.extend_from_slice(&id)?;
    text.push(b' ')?;
    push_quoted(text, note_of(update))?;
    text.push(b'\n')?;
    Ok(())
}
