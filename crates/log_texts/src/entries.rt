//! The entries of a log.

ghost use Rattle.std.specs.Prelude.{◌≡◌, IfOk, is_some, map, option_copied};
ghost use Rattle.std.specs.BTreeMap.{get};
ghost use Rattle.update_model.specs.declared.update_id.UpdateId.{UpdateId as Id};
ghost use Rattle.update_model.specs.Entry.{id_cmp};
ghost use Rattle.graph_drawing.specs.Boxes.{is_head, note_of, reason_of};
ghost use Rattle.graph_drawing.specs.Depths.{nodes_of};
ghost use Rattle.log_texts.specs.Entries.{AreEntries, entry_by, ids_of};

use crate::entry::Entry;
use graph_drawing::{NoteLine, Placed, Told, place_in_order};
use hash_graph::Graph;
use std::alloc::{AllocError, Global};
use std::collections::BTreeMap;
use table_model::VoidLine;
use text_words::ByteString;
use update_check::Checked;
use update_model::UpdateId;

/// What a log tells of updates beside themselves, by their ids.
#[derive(Drop)]
pub(crate) struct Marks<'a> {
    /// The heads.
    heads: BTreeMap<UpdateId, ()>,
    /// Why updates do nothing.
    reasons: BTreeMap<UpdateId, u8>,
    /// The notes of updates.
    notes: BTreeMap<UpdateId, &'a [u8]>,
}

/// The entries of a graph, the newest first, with what is told of its updates.
pub fn entries_of(
    alloc: Global,
    graph: &Graph<Checked>,
    told: &Told,
) -> Result<Vec<Entry>, AllocError>
    ensures { IfOk result (λ entries. AreEntries (nodes_of graph.now) told.now entries.items) }
{
    let placed = place_in_order(alloc, graph)?;
    let marks = Marks {
        heads: heads_by_id(alloc, &told.heads)?,
        reasons: reasons_by_id(alloc, &told.voids)?,
        notes: notes_by_id(alloc, &told.notes)?,
    };
    let mut entries = marked_all(alloc, &marks, placed)?;
    entries.reverse();
    Ok(entries)
}

/// The ids of entries.
pub(crate) fn ids_of(alloc: Global, entries: &[Entry]) -> Result<Vec<UpdateId>, AllocError>
    ensures { IfOk result (λ ids. ids.items ≡ ids_of entries.now) }
{
    let mut ids = Vec::with_capacity(alloc, entries.len())?;
    for entry in entries {
        ids.push(entry.placed.node.id)?;
    }
    Ok(ids)
}

/// Ids as a set, such as those of the heads.
pub(crate) fn heads_by_id(
    alloc: Global,
    heads: &[UpdateId],
) -> Result<BTreeMap<UpdateId, ()>, AllocError>
    ensures { IfOk result (λ known. (id : Id) → is_some (get id_cmp known id) ≡ is_head heads.now id) }
{
    let mut known = BTreeMap::new(alloc);
    for position in (0..heads.len()).rev() {
        known.insert(heads[position], ())?;
    }
    Ok(known)
}

/// The reasons for which updates do nothing, by their ids.
fn reasons_by_id(alloc: Global, voids: &[VoidLine]) -> Result<BTreeMap<UpdateId, u8>, AllocError>
    ensures { IfOk result (λ known. (id : Id) → get id_cmp known id ≡ reason_of voids.now id) }
{
    let mut known = BTreeMap::new(alloc);
    for position in (0..voids.len()).rev() {
        let line = &voids[position];
        known.insert(line.id, line.reason)?;
    }
    Ok(known)
}

/// The notes of updates, by their ids.
fn notes_by_id<'a>(
    alloc: Global,
    notes: &'a [NoteLine],
) -> Result<BTreeMap<UpdateId, &'a [u8]>, AllocError>
    ensures { IfOk result (λ known. (id : Id) → option_copied (get id_cmp known id) ≡ note_of notes.now id) }
{
    let mut known = BTreeMap::new(alloc);
    for position in (0..notes.len()).rev() {
        let line = &notes[position];
        known.insert(line.id, line.text.as_slice())?;
    }
    Ok(known)
}

/// The entries of updates, in their order.
fn marked_all(alloc: Global, marks: &Marks, placed: Vec<Placed>) -> Result<Vec<Entry>, AllocError>
    ensures { IfOk result (λ entries. entries.items ≡ map (entry_by (λ id. is_some (get id_cmp marks.now.heads id))
        (get id_cmp marks.now.reasons) (λ id. option_copied (get id_cmp marks.now.notes id))) placed.items) }
{
    let mut entries = Vec::with_capacity(alloc, placed.len())?;
    for next in placed {
        let entry = marked(alloc, marks, next)?;
        entries.push(entry)?;
    }
    Ok(entries)
}

/// The entry of an update.
fn marked(alloc: Global, marks: &Marks, placed: Placed) -> Result<Entry, AllocError>
    ensures { IfOk result (λ entry. entry ≡ entry_by (λ id. is_some (get id_cmp marks.now.heads id))
        (get id_cmp marks.now.reasons) (λ id. option_copied (get id_cmp marks.now.notes id)) placed) }
{
    let id = placed.node.id;
    Ok(Entry {
        head: marks.heads.contains_key(&id),
        reason: marks.reasons.get(&id).copied(),
        note: copy_note(alloc, marks.notes.get(&id).copied())?,
        placed,
    })
}

/// A copy of a note, if there is one.
fn copy_note(alloc: Global, note: Option<&[u8]>) -> Result<Option<ByteString>, AllocError>
    ensures { IfOk result (λ copy. copy ≡ option_copied note.entry) }
{
    match note {
        Some(text) => Ok(Some(ByteString::from_vec(Vec::from_slice(alloc, text)?))),
        None => Ok(None),
    }
}
