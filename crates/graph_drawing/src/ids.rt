//! Ids and keys, and what is told of them.

ghost use Rattle.std.specs.Prelude.{◌≡◌, IfOk};
ghost use Rattle.table_model.specs.Verdicts.{same_author};
ghost use Rattle.update_model.specs.Entry.{same_id};
ghost use Rattle.graph_drawing.specs.Boxes.{is_head, note_of, reason_of};

use crate::note_line::NoteLine;
use std::alloc::{AllocError, Global};
use table_model::VoidLine;
use text_words::ByteString;
use update_model::{AuthorKey, UpdateId};

/// Whether two ids are one.
pub(crate) fn same_id(a: &UpdateId, b: &UpdateId) -> bool
    ensures { result ≡ same_id a.now b.now }
{
    a.cmp(b).is_eq()
}

/// Whether two keys are one.
pub(crate) fn same_author(a: &AuthorKey, b: &AuthorKey) -> bool
    ensures { result ≡ same_author a.now b.now }
{
    a == b
}

/// Whether the id is one of these heads.
pub(crate) fn is_head(heads: &[UpdateId], id: &UpdateId) -> bool
    ensures { result ≡ is_head heads.now id.now }
{
    heads.iter().any(|head| same_id(head, id))
}

/// The reason for which the update with this id does nothing.
pub(crate) fn reason_of(voids: &[VoidLine], id: &UpdateId) -> Option<u8>
    ensures { result ≡ reason_of voids.now id.now }
{
    voids
        .iter()
        .find(|line| same_id(&line.id, id))
        .map(|line| line.reason)
}

/// A copy of the note of the update with this id.
pub(crate) fn copy_note(
    alloc: Global,
    notes: &[NoteLine],
    id: &UpdateId,
) -> Result<Option<ByteString>, AllocError>
    ensures { IfOk result (λ note. note ≡ note_of notes.now id.now) }
{
    match notes.iter().find(|line| same_id(&line.id, id)) {
        Some(line) => Ok(Some(line.text.copy(alloc)?)),
        None => Ok(None),
    }
}
