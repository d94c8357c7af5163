//! The blocks that are told of a view.

ghost use Rattle.std.specs.Prelude.{◌≡◌, ◌++◌, IfOk, OnOk};
ghost use Rattle.table_text.specs.Values.{value_text};
ghost use Rattle.table_text.specs.declared.name_style.NameStyle.TheVariants.{Full};
ghost use Rattle.query_answer.specs.Lines.{apart, each_after, row_line};
ghost use Rattle.watch_command.specs.Blocks.{block, closing_block, marked};

use std::alloc::{AllocError, Global};
use table_text::{NameStyle, push_value};
use update_model::{Value, ValueList};

/// The block of the lines that went and came, behind so many records.
pub(crate) fn block(
    alloc: Global,
    went: &[ValueList],
    came: &[ValueList],
    count: u32,
) -> Result<Vec<u8>, AllocError>
    ensures { IfOk result (λ text. text.items ≡ block went.now came.now count) }
{
    let mut text = Vec::new(alloc);
    push_marked(&mut text, b"- ", went)?;
    push_marked(&mut text, b"+ ", came)?;
    let line = format!(in alloc; "= {count}\n")?;
    text.extend_from_slice(line.as_bytes())?;
    Ok(text)
}

/// The same, and nothing where no line went or came.
pub(crate) fn closing_block(
    alloc: Global,
    went: &[ValueList],
    came: &[ValueList],
    count: u32,
) -> Result<Vec<u8>, AllocError>
    ensures { IfOk result (λ text. text.items ≡ closing_block went.now came.now count) }
{
    if went.is_empty() && came.is_empty() {
        return Ok(Vec::new(alloc));
    }
    block(alloc, went, came, count)
}

/// Adds the lines of rows, each behind a mark.
fn push_marked(text: &mut Vec<u8>, mark: &[u8], lines: &[ValueList]) -> Result<(), AllocError>
    ensures { OnOk result (text.new.items ≡ text.old.items ++ marked mark.now lines.now) }
{
    for line in lines {
        text.extend_from_slice(mark)?;
        push_line(text, line.as_slice())?;
    }
    Ok(())
}

/// Adds the line of a row.
fn push_line(out: &mut Vec<u8>, values: &[Value]) -> Result<(), AllocError>
    ensures { OnOk result (out.new.items ≡ out.old.items ++ row_line values.now) }
{
    push_apart(out, values)?;
    out.push(b'\n')?;
    Ok(())
}

/// Adds values, with tabs between them.
fn push_apart(out: &mut Vec<u8>, values: &[Value]) -> Result<(), AllocError>
    ensures { OnOk result (out.new.items ≡ out.old.items ++ apart 9 (value_text Full) values.now) }
{
    match values {
        [] => Ok(()),
        [first, later @ ..] => {
            push_value(out, NameStyle::Full, first)?;
            push_later(out, later)
        }
    }
}

/// Adds values, each after a tab.
fn push_later(out: &mut Vec<u8>, values: &[Value]) -> Result<(), AllocError>
    ensures { OnOk result (out.new.items ≡ out.old.items ++ each_after 9 (value_text Full) values.now) }
{
    for value in values {
        out.push(b'\t')?;
        push_value(out, NameStyle::Full, value)?;
    }
    Ok(())
}
