//! The updates that only one of two logs has.

ghost use Rattle.std.specs.Prelude.{◌≡◌, ◌∷◌, ◌++◌, IfOk, OnOk, filter, is_some, not};
ghost use Rattle.std.specs.BTreeMap.{get};
ghost use Rattle.std.specs.List.{flat_map};
ghost use Rattle.update_model.specs.Entry.{id_cmp};
ghost use Rattle.log_texts.specs.Differing.{beside, both_json, diff_text, differing_in, list_json, noted_json, signed};
ghost use Rattle.log_texts.specs.Differing.{signed_note};
ghost use Rattle.log_texts.specs.Entries.{id_of, ids_of};

use crate::entries::{heads_by_id, ids_of};
use crate::entry::Entry;
use crate::json::push_noted_json;
use crate::lines::{push_line, push_note_row};
use crate::logs::manner_by;
use crate::manner::Manner;
use crate::names::Names;
use crate::style::Style;
use std::alloc::{AllocError, Global};
use std::collections::BTreeMap;
use text_words::ByteString;
use update_model::UpdateId;

/// What only the second of two logs has, each line behind a plus, and then what only the first has, each line behind a
/// minus; or both as one JSON object. Only these entries are left in the lists.
pub fn diff_text(
    alloc: Global,
    style: Style,
    first: &mut Vec<Entry>,
    second: &mut Vec<Entry>,
) -> Result<Vec<u8>, AllocError>
    ensures { IfOk result (λ text. text.items ≡ diff_text style first.old.items second.old.items) }
{
    let mut ids = ids_of(alloc, first)?;
    let others = ids_of(alloc, second)?;
    keep_beside(alloc, &ids, second)?;
    keep_beside(alloc, &others, first)?;
    let added = ids_of(alloc, second)?;
    ids.extend_from_slice(&added)?;
    let manner = manner_by(alloc, style, &ids)?;
    let mut text = Vec::new(alloc);
    push_differing(&mut text, manner, first, second)?;
    Ok(text)
}

/// Leaves the entries whose ids are none of these.
fn keep_beside(alloc: Global, ids: &[UpdateId], entries: &mut Vec<Entry>) -> Result<(), AllocError>
    ensures { OnOk result (entries.new.items ≡ beside ids.now entries.old.items) }
{
    let known = heads_by_id(alloc, ids)?;
    keep_unknown(&known, entries);
    Ok(())
}

/// Leaves the entries whose ids are not known.
fn keep_unknown(known: &BTreeMap<UpdateId, ()>, entries: &mut Vec<Entry>)
    ensures { entries.new.items ≡ filter (λ entry. not (is_some (get id_cmp known.now (id_of entry)))) entries.old.items }
{
    entries.retain(|entry| is_unknown(known, entry));
}

/// Whether the id of an entry is not known.
fn is_unknown(known: &BTreeMap<UpdateId, ()>, entry: &Entry) -> bool
    ensures { result ≡ not (is_some (get id_cmp known.now (id_of entry.now))) }
{
    !known.contains_key(&entry.placed.node.id)
}

/// Adds what only the first has, and what only the second has.
fn push_differing(
    out: &mut Vec<u8>,
    manner: Manner,
    first: &[Entry],
    second: &[Entry],
) -> Result<(), AllocError>
    ensures { OnOk result (out.new.items ≡ out.old.items ++ differing_in manner first.now second.now) }
{
    match manner {
        Manner::Lines(names) => {
            push_all_signed(out, names, b"+ ", second)?;
            push_all_signed(out, names, b"- ", first)
        }
        Manner::Json => push_both_json(out, first, second),
    }
}

/// Adds both lists as one JSON object.
#[tactic(auto, unfolding(crate::specs::Differing::both_json))]
fn push_both_json(out: &mut Vec<u8>, first: &[Entry], second: &[Entry]) -> Result<(), AllocError>
    ensures { OnOk result (out.new.items ≡ out.old.items ++ both_json first.now second.now) }
{
    out.extend_from_slice(b"{\"first\":[")?;
    push_list_json(out, first)?;
    out.extend_from_slice(b"],\"second\":[")?;
    push_list_json(out, second)?;
    out.extend_from_slice(b"]}\n")
}

/// Adds entries with commas between them.
fn push_list_json(out: &mut Vec<u8>, entries: &[Entry]) -> Result<(), AllocError>
    ensures { OnOk result (out.new.items ≡ out.old.items ++ list_json entries.now) }
{
    match entries {
        [] => Ok(()),
        [entry, others @ ..] => {
            push_noted_json(out, entry)?;
            push_more_json(out, others)
        }
    }
}

/// Adds entries, each behind a comma.
fn push_more_json(out: &mut Vec<u8>, entries: &[Entry]) -> Result<(), AllocError>
    ensures { OnOk result (out.new.items ≡ out.old.items ++ flat_map (λ next. 44 ∷ noted_json next) entries.now) }
{
    for entry in entries {
        out.push(b',')?;
        push_noted_json(out, entry)?;
    }
    Ok(())
}

/// Adds the lines of entries, each behind a sign.
fn push_all_signed(
    out: &mut Vec<u8>,
    names: Names,
    sign: &[u8],
    entries: &[Entry],
) -> Result<(), AllocError>
    ensures { OnOk result (out.new.items ≡ out.old.items ++ flat_map (signed names sign.now) entries.now) }
{
    for entry in entries {
        push_signed(out, names, sign, entry)?;
    }
    Ok(())
}

/// Adds the lines of an entry, each behind a sign.
#[tactic(auto, unfolding(crate::specs::Differing::signed))]
fn push_signed(
    out: &mut Vec<u8>,
    names: Names,
    sign: &[u8],
    entry: &Entry,
) -> Result<(), AllocError>
    ensures { OnOk result (out.new.items ≡ out.old.items ++ signed names sign.now entry.now) }
{
    out.extend_from_slice(sign)?;
    push_line(out, names, entry)?;
    push_signed_note(out, sign, &entry.note)
}

/// Adds the line of a note, if there is one, behind a sign.
fn push_signed_note(
    out: &mut Vec<u8>,
    sign: &[u8],
    note: &Option<ByteString>,
) -> Result<(), AllocError>
    ensures { OnOk result (out.new.items ≡ out.old.items ++ signed_note sign.now note.now) }
{
    if note.is_none() {
        return Ok(());
    }
    out.extend_from_slice(sign)?;
    push_note_row(out, note)
}
