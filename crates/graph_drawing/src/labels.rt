//! The lines in a box.

ghost use Rattle.std.specs.Prelude.{◌≡◌, ◌++◌, OnOk, take};
ghost use Rattle.std.specs.List.{flat_map};
ghost use Rattle.graph_drawing.specs.Labels.{box_lines, line, line_begin, line_end, more_line, note_line};
ghost use Rattle.graph_drawing.specs.Labels.{operation_line, operation_lines, title, void_line};
ghost use Rattle.graph_drawing.specs.Words.{clipped};

use crate::form::Form;
use crate::limits::{ID_DIGITS, MAX_CHARACTERS, MAX_LINES};
use crate::spot::Spot;
use crate::words::{
    push_clipped, push_key_end, push_number, push_short_id, push_short_operation, reason_words,
};
use schema::Schema;
use std::alloc::{AllocError, Global};
use text_words::{ByteString, push_quoted};
use update_model::Op;

/// Adds all lines of a box.
#[tactic(auto, unfolding(crate::specs::Labels::box_lines))]
pub(crate) fn push_box_lines(
    alloc: Global,
    out: &mut Vec<u8>,
    form: Form,
    schema: &Schema,
    spot: &Spot,
) -> Result<(), AllocError>
    ensures { OnOk result (out.new.items ≡ out.old.items ++ box_lines form schema.now.tables spot.now) }
{
    push_title(out, form, spot)?;
    push_note_line(alloc, out, form, &spot.note)?;
    push_operation_lines(alloc, out, form, schema, spot.node.ops.as_slice())?;
    push_void_line(out, form, spot.reason)
}

/// What begins a line.
fn line_begin(form: Form) -> &'static [u8]
    ensures { result.now ≡ line_begin form }
{
    match form {
        Form::Svg => b"<tspan x='12' dy='16'>",
        Form::Dot => b"",
    }
}

/// What ends a line.
fn line_end(form: Form) -> &'static [u8]
    ensures { result.now ≡ line_end form }
{
    match form {
        Form::Svg => b"</tspan>",
        Form::Dot => b"<br align='left'/>",
    }
}

/// Adds a line with this text.
fn push_line(out: &mut Vec<u8>, form: Form, text: &[u8]) -> Result<(), AllocError>
    ensures { OnOk result (out.new.items ≡ out.old.items ++ line form text.now) }
{
    out.extend_from_slice(line_begin(form))?;
    out.extend_from_slice(text)?;
    out.extend_from_slice(line_end(form))
}

/// Adds the line of the id and the author.
fn push_title(out: &mut Vec<u8>, form: Form, spot: &Spot) -> Result<(), AllocError>
    ensures { OnOk result (out.new.items ≡ out.old.items ++ line form (title spot.now)) }
{
    out.extend_from_slice(line_begin(form))?;
    push_short_id(out, ID_DIGITS, &spot.node.id)?;
    out.extend_from_slice(b" by ..")?;
    push_key_end(out, &spot.node.author)?;
    out.extend_from_slice(line_end(form))
}

/// Adds the line of a note, if there is one.
fn push_note_line(
    alloc: Global,
    out: &mut Vec<u8>,
    form: Form,
    note: &Option<ByteString>,
) -> Result<(), AllocError>
    ensures { OnOk result (out.new.items ≡ out.old.items ++ note_line form note.now) }
{
    let Some(text) = note else {
        return Ok(());
    };
    let mut words = Vec::new(alloc);
    push_quoted(&mut words, text.as_slice())?;
    push_clipped_line(out, form, &words)
}

/// Adds the lines of the first operations, and how many there are behind them.
fn push_operation_lines(
    alloc: Global,
    out: &mut Vec<u8>,
    form: Form,
    schema: &Schema,
    ops: &[Op],
) -> Result<(), AllocError>
    ensures { OnOk result (out.new.items ≡ out.old.items ++ operation_lines form schema.now.tables ops.now) }
{
    push_each_operation(alloc, out, form, schema, &ops[..ops.len().min(MAX_LINES)])?;
    push_more_line(out, form, ops.len().saturating_sub(MAX_LINES))
}

/// Adds the line of each of these operations.
fn push_each_operation(
    alloc: Global,
    out: &mut Vec<u8>,
    form: Form,
    schema: &Schema,
    ops: &[Op],
) -> Result<(), AllocError>
    ensures { OnOk result (out.new.items ≡ out.old.items ++ flat_map (operation_line form schema.now.tables) ops.now) }
{
    for op in ops {
        push_operation_line(alloc, out, form, schema, op)?;
    }
    Ok(())
}

/// Adds the line of an operation.
fn push_operation_line(
    alloc: Global,
    out: &mut Vec<u8>,
    form: Form,
    schema: &Schema,
    op: &Op,
) -> Result<(), AllocError>
    ensures { OnOk result (out.new.items ≡ out.old.items ++ operation_line form schema.now.tables op.now) }
{
    let mut words = Vec::new(alloc);
    push_short_operation(&mut words, ID_DIGITS, schema, op)?;
    push_clipped_line(out, form, &words)
}

/// Adds a line with the first characters of this text.
fn push_clipped_line(out: &mut Vec<u8>, form: Form, text: &[u8]) -> Result<(), AllocError>
    ensures { OnOk result (out.new.items ≡ out.old.items ++ line form (clipped text.now MAX_CHARACTERS)) }
{
    out.extend_from_slice(line_begin(form))?;
    push_clipped(out, text, MAX_CHARACTERS)?;
    out.extend_from_slice(line_end(form))
}

/// Adds how many operations are not told, if there are any.
fn push_more_line(out: &mut Vec<u8>, form: Form, count: usize) -> Result<(), AllocError>
    ensures { OnOk result (out.new.items ≡ out.old.items ++ more_line form count) }
{
    if count == 0 {
        return Ok(());
    }
    out.extend_from_slice(line_begin(form))?;
    out.extend_from_slice(b"and ")?;
    push_number(out, count as u64)?;
    out.extend_from_slice(b" more")?;
    out.extend_from_slice(line_end(form))
}

/// Adds why the update does nothing, if so.
fn push_void_line(out: &mut Vec<u8>, form: Form, reason: Option<u8>) -> Result<(), AllocError>
    ensures { OnOk result (out.new.items ≡ out.old.items ++ void_line form reason) }
{
    let Some(reason) = reason else {
        return Ok(());
    };
    push_line(out, form, reason_words(reason))
}
