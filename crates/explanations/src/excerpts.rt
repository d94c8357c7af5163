//! The line that a refusal is about.

ghost use Rattle.std.specs.Prelude.{◌≡◌, ◌++◌, OnOk, option_map};
ghost use Rattle.explanations.specs.Explained.{excerpt, excerpt_by, habit_rows, line_marked as marked_in, marked_rows};
ghost use Rattle.explanations.specs.Explained.{line_operated, shown_alone};
ghost use Rattle.explanations.specs.Values.{value_of};

use crate::habits::habit_of;
use crate::looking_up::entry_of;
use crate::refusals::table;
use crate::rows::push_rows;
use crate::shown_lines::push_shown;
use crate::text_lines::{numbered_line, operation_line};
use crate::values::Values;
use std::alloc::{AllocError, Global};

/// Adds the line of the text that a refusal is about, where it is about one and the text has it.
pub(crate) fn push_excerpt(
    alloc: Global,
    out: &mut Vec<u8>,
    said: &[u8],
    values: &Values,
    text: &[u8],
) -> Result<(), AllocError>
    ensures { OnOk result (out.new.items ≡ out.old.items ++ excerpt (value_of values.now.marks values.now.help.now
        values.now.directory.now values.now.other.now) values.now.marks said.now text.now) }
{
    if values.marks.line.is_some() && said.ends_with(b"too long") {
        return Ok(());
    }
    let found = line_marked(text, values.marks.line);
    push_line(alloc, out, found, values, text)
}

/// Adds a line of the text and what the table says of a habit in it, or else the line of an operation.
fn push_line(
    alloc: Global,
    out: &mut Vec<u8>,
    found: Option<(u64, &[u8])>,
    values: &Values,
    text: &[u8],
) -> Result<(), AllocError>
    ensures { OnOk result (out.new.items ≡ out.old.items ++ excerpt_by (value_of values.now.marks values.now.help.now
        values.now.directory.now values.now.other.now) values.now.marks text.now
        (option_map (λ read. (read.0, read.1.now)) found.entry)) }
{
    match found {
        Some((number, line)) => push_marked(alloc, out, number, line, values),
        None => push_operation(alloc, out, text, values.marks.operation),
    }
}

/// Adds a line of the text and what the table says of a habit in it.
fn push_marked(
    alloc: Global,
    out: &mut Vec<u8>,
    number: u64,
    line: &[u8],
    values: &Values,
) -> Result<(), AllocError>
    ensures { OnOk result (out.new.items ≡ out.old.items ++ marked_rows (value_of values.now.marks values.now.help.now
        values.now.directory.now values.now.other.now) values.now.marks.column number line.now) }
{
    let column = values.marks.column;
    push_shown(alloc, out, number, line, column)?;
    push_habit(alloc, out, habit_of(number, line, column), values)?;
    Ok(())
}

/// The line of a text that has a number, and the number.
fn line_marked(text: &[u8], number: Option<u64>) -> Option<(u64, &[u8])>
    ensures { option_map (λ read. (read.0, read.1.now)) result ≡ marked_in text.now number }
{
    let number = number?;
    Some((number, numbered_line(text, number)?))
}

/// Adds the line of an operation, where the text has it.
fn push_operation(
    alloc: Global,
    out: &mut Vec<u8>,
    text: &[u8],
    operation: Option<u64>,
) -> Result<(), AllocError>
    ensures { OnOk result (out.new.items ≡ out.old.items ++ shown_alone (line_operated text.now operation)) }
{
    let Some(operation) = operation else {
        return Ok(());
    };
    match operation_line(text, operation) {
        Some((number, line)) => push_shown(alloc, out, number, line, None),
        None => Ok(()),
    }
}

/// Adds what the table says of a habit.
fn push_habit(
    alloc: Global,
    out: &mut Vec<u8>,
    habit: &[u8],
    values: &Values,
) -> Result<(), AllocError>
    ensures { OnOk result (out.new.items ≡ out.old.items ++ habit_rows (value_of values.now.marks values.now.help.now
        values.now.directory.now values.now.other.now) habit.now) }
{
    match entry_of(table(), habit) {
        Some((_, text)) => push_rows(alloc, out, b"bec:", text, values),
        None => Ok(()),
    }
}
