//! Updates that are checked, and what they lend.

use crate::signed::{DATABASE, signed};
use std::alloc::{AllocError, Global};
use update_check::{CheckError, Checked, check};
use update_codec::{decode, encode};
use update_model::{AuthorKey, DbRule, KeyList, Member};

/// No predecessors, and one operation, which deletes a row.
const DELETING: &[u8] = b"\0\0\0\x01\x0266666666666666666666666666666666\0\x07";

/// Whether an update by an author that deletes a row lends its parts.
fn has_parts(alloc: Global, update: &Checked, author: AuthorKey) -> Result<bool, AllocError> {
    let node = update.node(alloc)?;
    let has_node = (node.ops.as_slice().len(), node.author) == (1, author)
        && node.id == update.id();
    let has_rest = (*update.database(), update.signature().len()) == (DATABASE, 4460);
    Ok(has_node && has_rest && update.preds().is_empty())
}

/// The same, of a copy of one that is drawn, which is under its rule and has the bytes that were checked.
fn lends(alloc: Global) -> Result<bool, CheckError> {
    let (bytes, author) = signed(alloc, [7, 0, 0], DELETING)?;
    let len = bytes.len();
    let rule = DbRule {
        database: DATABASE,
        authors: KeyList::from_vec(Vec::from_slice(alloc, &[author])?),
    };
    let update = check(alloc, &rule, bytes)?.copy(alloc)?;
    let has_parts = has_parts(alloc, &update, author)?;
    Ok(has_parts && update.is_under(&rule) && update.into_bytes().len() == len)
}

#[test]
fn lends_its_parts(rt: HostRuntime) {
    assert!(rt; matches!(lends(rt.alloc()), Ok(true)));
}

/// The parts of an update of version 2 whose note is an e with an acute accent: behind its database and a key of types
/// 5 and 4 with 48 bytes 0 neither predecessors nor operations, the note and a signature of 1,292 bytes 0.
const NOTED: &[&[u8]] = &[
    &[2],
    &[0xdd; 32],
    &[0, 0, 0, 5, 0, 0, 0, 4],
    &[0; 48],
    b"\0\0\0\0\0\x02\xc3\xa9\0\0\x05\x0c",
    &[0; 1292],
];

/// Whether bytes spell an update with this note, and are its spelling.
fn has_note(alloc: Global, bytes: &[u8], text: &str) -> bool {
    let Ok(update) = decode(alloc, bytes) else {
        return false;
    };
    let is_noted = match &update.body.note {
        None => false,
        Some(note) => note.as_slice() == text.as_bytes(),
    };
    match encode(alloc, &update) {
        Ok(again) => is_noted && again.as_slice() == bytes,
        Err(_) => false,
    }
}

/// Whether an update of version 2 keeps its note.
fn keeps_a_note(alloc: Global) -> Result<bool, AllocError> {
    Ok(has_note(alloc, &NOTED.concat(alloc)?, "\u{e9}"))
}

#[test]
fn a_note_is_read_and_written(rt: HostRuntime) {
    assert!(rt; matches!(keeps_a_note(rt.alloc()), Ok(true)));
}
