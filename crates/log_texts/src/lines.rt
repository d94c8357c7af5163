//! The lines of an entry.

ghost use Rattle.std.specs.Prelude.{◌≡◌, ◌++◌, OnOk};
ghost use Rattle.std.specs.List.{flat_map};
ghost use Rattle.log_texts.specs.Lines.{asked_ops, front_text, head_mark, id_in, key_in, line_text, lines_text};
ghost use Rattle.log_texts.specs.Lines.{note_row, operation_in, operation_row, void_mark};

use crate::entry::Entry;
use crate::names::Names;
use graph_drawing::{
    Placed, push_id, push_key, push_key_end, push_number, push_short_id, push_short_operation,
    reason_words,
};
use schema::Schema;
use std::alloc::AllocError;
use table_text::{NameStyle, push_operation};
use text_words::{ByteString, push_quoted};
use update_model::{AuthorKey, Op, UpdateId};

/// Adds an entry with this note and these operations.
#[tactic(auto, unfolding(crate::specs::Lines::lines_text))]
pub(crate) fn push_lines(
    out: &mut Vec<u8>,
    names: Names,
    schema: &Schema,
    note: &Option<ByteString>,
    ops: &[Op],
    entry: &Entry,
) -> Result<(), AllocError>
    ensures { OnOk result (out.new.items ≡ out.old.items ++ lines_text names schema.now.tables note.now ops.now
        entry.now) }
{
    push_line(out, names, entry)?;
    push_note_row(out, note)?;
    push_rows(out, names, schema, ops)
}

/// Adds the line of an update.
#[tactic(auto, unfolding(crate::specs::Lines::line_text))]
pub(crate) fn push_line(out: &mut Vec<u8>, names: Names, entry: &Entry) -> Result<(), AllocError>
    ensures { OnOk result (out.new.items ≡ out.old.items ++ line_text names entry.now) }
{
    push_front(out, names, &entry.placed)?;
    out.extend_from_slice(head_mark(entry.head))?;
    push_void_mark(out, entry.reason)?;
    out.extend_from_slice(b"\n")
}

/// Adds the id, the author and the depth of an update.
#[tactic(auto, unfolding(crate::specs::Lines::front_text))]
fn push_front(out: &mut Vec<u8>, names: Names, placed: &Placed) -> Result<(), AllocError>
    ensures { OnOk result (out.new.items ≡ out.old.items ++ front_text names placed.now) }
{
    push_id_in(out, names, &placed.node.id)?;
    out.extend_from_slice(b" ")?;
    push_key_in(out, names, &placed.node.author)?;
    out.extend_from_slice(b" depth ")?;
    push_number(out, u64::from(placed.depth))
}

/// Adds an id.
fn push_id_in(out: &mut Vec<u8>, names: Names, id: &UpdateId) -> Result<(), AllocError>
    ensures { OnOk result (out.new.items ≡ out.old.items ++ id_in names id.now) }
{
    match names {
        Names::Whole => push_id(out, id),
        Names::Cut(digits) => push_short_id(out, digits, id),
    }
}

/// Adds a key.
fn push_key_in(out: &mut Vec<u8>, names: Names, key: &AuthorKey) -> Result<(), AllocError>
    ensures { OnOk result (out.new.items ≡ out.old.items ++ key_in names key.now) }
{
    match names {
        Names::Whole => push_key(out, key),
        Names::Cut(_) => {
            out.extend_from_slice(b"..")?;
            push_key_end(out, key)
        }
    }
}

/// That an update is a head.
fn head_mark(head: bool) -> &'static [u8]
    ensures { result.now ≡ head_mark head }
{
    if head { b" head" } else { b"" }
}

/// Adds that an update does nothing, and why, if so.
fn push_void_mark(out: &mut Vec<u8>, reason: Option<u8>) -> Result<(), AllocError>
    ensures { OnOk result (out.new.items ≡ out.old.items ++ void_mark reason) }
{
    let Some(reason) = reason else {
        return Ok(());
    };
    out.extend_from_slice(b" ")?;
    out.extend_from_slice(reason_words(reason))
}

/// Adds the line of a note, if there is one.
pub(crate) fn push_note_row(out: &mut Vec<u8>, note: &Option<ByteString>) -> Result<(), AllocError>
    ensures { OnOk result (out.new.items ≡ out.old.items ++ note_row note.now) }
{
    let Some(text) = note else {
        return Ok(());
    };
    out.extend_from_slice(b"  note ")?;
    push_quoted(out, text.as_slice())?;
    out.extend_from_slice(b"\n")
}

/// Adds the line of each operation.
fn push_rows(out: &mut Vec<u8>, names: Names, schema: &Schema, ops: &[Op]) -> Result<(), AllocError>
    ensures { OnOk result (out.new.items ≡ out.old.items ++ flat_map (operation_row names schema.now.tables) ops.now) }
{
    for op in ops {
        push_row(out, names, schema, op)?;
    }
    Ok(())
}

/// Adds the line of an operation.
#[tactic(auto, unfolding(crate::specs::Lines::operation_row))]
fn push_row(out: &mut Vec<u8>, names: Names, schema: &Schema, op: &Op) -> Result<(), AllocError>
    ensures { OnOk result (out.new.items ≡ out.old.items ++ operation_row names schema.now.tables op.now) }
{
    out.extend_from_slice(b"  ")?;
    push_operation_in(out, names, schema, op)?;
    out.extend_from_slice(b"\n")
}

/// Adds an operation.
fn push_operation_in(
    out: &mut Vec<u8>,
    names: Names,
    schema: &Schema,
    op: &Op,
) -> Result<(), AllocError>
    ensures { OnOk result (out.new.items ≡ out.old.items ++ operation_in names schema.now.tables op.now) }
{
    match names {
        Names::Whole => push_operation(out, schema, NameStyle::Full, op),
        Names::Cut(digits) => push_short_operation(out, digits, schema, op),
    }
}

/// The operations of an entry, if they are asked for.
pub(crate) fn asked_ops(rows: bool, entry: &Entry) -> &[Op]
    ensures { result.now ≡ asked_ops rows entry.now }
{
    if rows {
        entry.placed.node.ops.as_slice()
    } else {
        &[]
    }
}
