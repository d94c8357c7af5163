//! Entries as JSON.

ghost use Rattle.std.specs.Prelude.{◌≡◌, [], ◌∷◌, ◌++◌, OnOk, drop};
ghost use Rattle.std.specs.List.{flat_map};
ghost use Rattle.hex.specs.Hex.{encode_lower};
ghost use Rattle.graph_drawing.specs.Words.{reason_words};
ghost use Rattle.log_texts.specs.Json.{author_begin, depth_begin, entries_json, entry_json, front_json, head_json};
ghost use Rattle.log_texts.specs.Json.{list_json, marked, marks_json, names_json, note_json, note_marked};
ghost use Rattle.log_texts.specs.Json.{operation_json, operations_begin, operations_json, update_json, updates_begin};
ghost use Rattle.log_texts.specs.Json.{updates_json, void_json, whole_json};

use crate::entry::Entry;
use crate::lines::asked_ops;
use graph_drawing::{Placed, push_id, push_key, push_number, reason_words};
use schema::Schema;
use std::alloc::{AllocError, Global};
use table_text::{NameStyle, push_operation};
use text_words::ByteString;
use update_model::Op;

/// Adds one object with these entries.
#[tactic(auto, unfolding(crate::specs::Json::updates_json))]
pub(crate) fn push_updates_json(
    alloc: Global,
    out: &mut Vec<u8>,
    rows: bool,
    schema: &Schema,
    entries: &[Entry],
) -> Result<(), AllocError>
    ensures { OnOk result (out.new.items ≡ out.old.items ++ updates_json rows schema.now.tables entries.now) }
{
    out.extend_from_slice(updates_begin())?;
    push_entries_json(alloc, out, rows, schema, entries)?;
    out.extend_from_slice(b"]}\n")
}

/// Adds one object with one entry, with this note and these operations.
#[tactic(auto, unfolding(crate::specs::Json::update_json))]
pub(crate) fn push_update_json(
    alloc: Global,
    out: &mut Vec<u8>,
    schema: &Schema,
    note: &Option<ByteString>,
    ops: &[Op],
    entry: &Entry,
) -> Result<(), AllocError>
    ensures { OnOk result (out.new.items ≡ out.old.items ++ update_json schema.now.tables note.now ops.now entry.now) }
{
    out.extend_from_slice(updates_begin())?;
    push_entry_json(alloc, out, schema, note, ops, entry)?;
    out.extend_from_slice(b"]}\n")
}

/// Adds entries with commas between them.
fn push_entries_json(
    alloc: Global,
    out: &mut Vec<u8>,
    rows: bool,
    schema: &Schema,
    entries: &[Entry],
) -> Result<(), AllocError>
    ensures { OnOk result (out.new.items ≡ out.old.items ++ entries_json rows schema.now.tables entries.now) }
{
    match entries {
        [] => Ok(()),
        [entry, others @ ..] => {
            push_whole_json(alloc, out, rows, schema, entry)?;
            push_further_json(alloc, out, rows, schema, others)
        }
    }
}

/// Adds entries, each behind a comma.
fn push_further_json(
    alloc: Global,
    out: &mut Vec<u8>,
    rows: bool,
    schema: &Schema,
    entries: &[Entry],
) -> Result<(), AllocError>
    ensures { OnOk result (out.new.items ≡ out.old.items ++ flat_map (λ next. 44 ∷ whole_json rows schema.now.tables
        next) entries.now) }
{
    for entry in entries {
        out.push(b',')?;
        push_whole_json(alloc, out, rows, schema, entry)?;
    }
    Ok(())
}

/// Adds an entry with its note, and with its operations, if `rows` says so.
fn push_whole_json(
    alloc: Global,
    out: &mut Vec<u8>,
    rows: bool,
    schema: &Schema,
    entry: &Entry,
) -> Result<(), AllocError>
    ensures { OnOk result (out.new.items ≡ out.old.items ++ whole_json rows schema.now.tables entry.now) }
{
    push_entry_json(
        alloc,
        out,
        schema,
        &entry.note,
        asked_ops(rows, entry),
        entry,
    )
}

/// Adds an entry with its note and without operations.
#[tactic(auto, unfolding(crate::specs::Json::entry_json))]
pub(crate) fn push_noted_json(out: &mut Vec<u8>, entry: &Entry) -> Result<(), AllocError>
    ensures { OnOk result (out.new.items ≡ out.old.items ++ entry_json [] entry.now.note [] entry.now) }
{
    push_front_json(out, &entry.placed)?;
    push_marks_json(out, entry)?;
    push_note_json(out, &entry.note)?;
    out.extend_from_slice(b"}")
}

/// Adds an entry with this note and these operations.
#[tactic(auto, unfolding(crate::specs::Json::entry_json))]
fn push_entry_json(
    alloc: Global,
    out: &mut Vec<u8>,
    schema: &Schema,
    note: &Option<ByteString>,
    ops: &[Op],
    entry: &Entry,
) -> Result<(), AllocError>
    ensures { OnOk result (out.new.items ≡ out.old.items ++ entry_json schema.now.tables note.now ops.now entry.now) }
{
    push_front_json(out, &entry.placed)?;
    push_marks_json(out, entry)?;
    push_note_json(out, note)?;
    push_operations_json(alloc, out, schema, ops)?;
    out.extend_from_slice(b"}")
}

/// Adds the members that each entry has.
#[tactic(auto, unfolding(crate::specs::Json::front_json))]
fn push_front_json(out: &mut Vec<u8>, placed: &Placed) -> Result<(), AllocError>
    ensures { OnOk result (out.new.items ≡ out.old.items ++ front_json placed.now) }
{
    push_names_json(out, placed)?;
    out.extend_from_slice(depth_begin())?;
    push_number(out, u64::from(placed.depth))
}

/// Adds the id and the author.
#[tactic(auto, unfolding(crate::specs::Json::names_json))]
fn push_names_json(out: &mut Vec<u8>, placed: &Placed) -> Result<(), AllocError>
    ensures { OnOk result (out.new.items ≡ out.old.items ++ names_json placed.now) }
{
    out.extend_from_slice(b"{\"id\":\"")?;
    push_id(out, &placed.node.id)?;
    out.extend_from_slice(author_begin())?;
    push_key(out, &placed.node.author)
}

/// Adds whether an update is a head, and why it does nothing.
#[tactic(auto, unfolding(crate::specs::Json::marks_json))]
fn push_marks_json(out: &mut Vec<u8>, entry: &Entry) -> Result<(), AllocError>
    ensures { OnOk result (out.new.items ≡ out.old.items ++ marks_json entry.now) }
{
    out.extend_from_slice(b",\"head\":")?;
    out.extend_from_slice(head_json(entry.head))?;
    out.extend_from_slice(b",\"void\":")?;
    push_void_json(out, entry.reason)
}

/// Whether an update is a head.
fn head_json(head: bool) -> &'static [u8]
    ensures { result.now ≡ head_json head }
{
    if head { b"true" } else { b"false" }
}

/// Adds why an update does nothing.
fn push_void_json(out: &mut Vec<u8>, reason: Option<u8>) -> Result<(), AllocError>
    ensures { OnOk result (out.new.items ≡ out.old.items ++ void_json reason) }
{
    let Some(reason) = reason else {
        return out.extend_from_slice(b"null");
    };
    out.push(b'"')?;
    out.extend_from_slice(why(reason))?;
    out.extend_from_slice(b"\"")
}

/// The words of a reason, without the first six bytes.
fn why(reason: u8) -> &'static [u8]
    ensures { result.now ≡ drop 6 (reason_words reason) }
{
    let words = reason_words(reason);
    &words[words.len().min(6)..]
}

/// Adds the member of a note, if there is one.
fn push_note_json(out: &mut Vec<u8>, note: &Option<ByteString>) -> Result<(), AllocError>
    ensures { OnOk result (out.new.items ≡ out.old.items ++ note_json note.now) }
{
    let Some(text) = note else {
        return Ok(());
    };
    out.extend_from_slice(b",\"note\":\"")?;
    push_note_text(out, text.as_slice())?;
    out.extend_from_slice(b"\"")
}

/// Adds the bytes of a note.
fn push_note_text(out: &mut Vec<u8>, text: &[u8]) -> Result<(), AllocError>
    ensures { OnOk result (out.new.items ≡ out.old.items ++ flat_map note_marked text.now) }
{
    for byte in text {
        push_note_byte(out, *byte)?;
    }
    Ok(())
}

/// Adds one byte of a note.
fn push_note_byte(out: &mut Vec<u8>, byte: u8) -> Result<(), AllocError>
    ensures { OnOk result (out.new.items ≡ out.old.items ++ note_marked byte) }
{
    if byte == b'\n' {
        out.extend_from_slice(b"\\n")
    } else if byte == b'\t' {
        out.extend_from_slice(b"\\t")
    } else if byte < 32 || byte == 127 {
        out.extend_from_slice(b"\\u00")?;
        push_digits(out, byte)
    } else {
        push_marked(out, byte)
    }
}

/// Adds the two digits of a byte.
fn push_digits(out: &mut Vec<u8>, byte: u8) -> Result<(), AllocError>
    ensures { OnOk result (out.new.items ≡ out.old.items ++ encode_lower (byte ∷ [])) }
{
    let mut digits = [0u8; 2];
    let _ = hex::encode_to_slice([byte], &mut digits);
    out.extend_from_slice(&digits)
}

/// Adds the member of operations, if there are any.
fn push_operations_json(
    alloc: Global,
    out: &mut Vec<u8>,
    schema: &Schema,
    ops: &[Op],
) -> Result<(), AllocError>
    ensures { OnOk result (out.new.items ≡ out.old.items ++ operations_json schema.now.tables ops.now) }
{
    match ops {
        [] => Ok(()),
        [op, others @ ..] => push_list_json(alloc, out, schema, op, others),
    }
}

/// Adds the member of these operations.
#[tactic(auto, unfolding(crate::specs::Json::list_json))]
fn push_list_json(
    alloc: Global,
    out: &mut Vec<u8>,
    schema: &Schema,
    op: &Op,
    ops: &[Op],
) -> Result<(), AllocError>
    ensures { OnOk result (out.new.items ≡ out.old.items ++ list_json schema.now.tables op.now ops.now) }
{
    out.extend_from_slice(operations_begin())?;
    push_operation_json(alloc, out, schema, op)?;
    push_further_operations(alloc, out, schema, ops)?;
    out.extend_from_slice(b"]")
}

/// Adds operations, each behind a comma.
fn push_further_operations(
    alloc: Global,
    out: &mut Vec<u8>,
    schema: &Schema,
    ops: &[Op],
) -> Result<(), AllocError>
    ensures { OnOk result (out.new.items ≡ out.old.items ++ flat_map (λ next. 44 ∷ operation_json schema.now.tables
        next) ops.now) }
{
    for op in ops {
        out.push(b',')?;
        push_operation_json(alloc, out, schema, op)?;
    }
    Ok(())
}

/// Adds an operation as a text.
#[tactic(auto, unfolding(crate::specs::Json::operation_json))]
fn push_operation_json(
    alloc: Global,
    out: &mut Vec<u8>,
    schema: &Schema,
    op: &Op,
) -> Result<(), AllocError>
    ensures { OnOk result (out.new.items ≡ out.old.items ++ operation_json schema.now.tables op.now) }
{
    let mut words = Vec::new(alloc);
    push_operation(&mut words, schema, NameStyle::Full, op)?;
    out.push(b'"')?;
    push_marked_text(out, &words)?;
    out.extend_from_slice(b"\"")
}

/// Adds the bytes of a text.
fn push_marked_text(out: &mut Vec<u8>, text: &[u8]) -> Result<(), AllocError>
    ensures { OnOk result (out.new.items ≡ out.old.items ++ flat_map marked text.now) }
{
    for byte in text {
        push_marked(out, *byte)?;
    }
    Ok(())
}

/// Adds one byte of a text.
fn push_marked(out: &mut Vec<u8>, byte: u8) -> Result<(), AllocError>
    ensures { OnOk result (out.new.items ≡ out.old.items ++ marked byte) }
{
    match byte {
        b'"' => out.extend_from_slice(b"\\\""),
        b'\\' => out.extend_from_slice(b"\\\\"),
        _ => out.extend_from_slice(&[byte]),
    }
}

/// What begins an author.
#[tactic(auto, unfolding(crate::specs::Json::author_begin))]
fn author_begin() -> &'static [u8]
    ensures { result.now ≡ author_begin }
{
    b"\",\"author\":\""
}

/// What begins a depth.
#[tactic(auto, unfolding(crate::specs::Json::depth_begin))]
fn depth_begin() -> &'static [u8]
    ensures { result.now ≡ depth_begin }
{
    b"\",\"depth\":"
}

/// What begins operations.
#[tactic(auto, unfolding(crate::specs::Json::operations_begin))]
fn operations_begin() -> &'static [u8]
    ensures { result.now ≡ operations_begin }
{
    b",\"operations\":["
}

/// What begins updates.
#[tactic(auto, unfolding(crate::specs::Json::updates_begin))]
fn updates_begin() -> &'static [u8]
    ensures { result.now ≡ updates_begin }
{
    b"{\"updates\":["
}
