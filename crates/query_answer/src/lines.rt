//! Answers as they are printed.

ghost use Rattle.std.specs.Prelude.{◌≡◌, ◌++◌, IfOk, OnOk};
ghost use Rattle.std.specs.List.{flat_map};
ghost use Rattle.table_text.specs.Values.{value_text};
ghost use Rattle.table_text.specs.declared.name_style.NameStyle.TheVariants.{Full};
ghost use Rattle.query_answer.specs.Lines.{apart, each_after, row_line, lines_text};

use crate::Answer;
use std::alloc::{AllocError, Global};
use table_text::{NameStyle, push_value};
use update_model::{Value, ValueList};

/// The lines of an answer: one for each row, with its values as a dump has them and a tab between them. It gives up
/// where memory runs out.
pub fn print_lines(alloc: Global, answer: &Answer) -> Result<Vec<u8>, AllocError>
    ensures { IfOk result (λ text. text.items ≡ lines_text answer.now.rows.items) }
{
    let mut out = Vec::new(alloc);
    push_lines(&mut out, answer.rows.as_slice())?;
    Ok(out)
}

/// Adds the line of each row.
fn push_lines(out: &mut Vec<u8>, rows: &[ValueList]) -> Result<(), AllocError>
    ensures { OnOk result (out.new.items ≡ out.old.items ++ lines_text rows.now) }
{
    for row in rows {
        push_line(out, row.as_slice())?;
    }
    Ok(())
}

/// Adds the line of a row.
fn push_line(out: &mut Vec<u8>, values: &[Value]) -> Result<(), AllocError>
    ensures { OnOk result (out.new.items ≡ out.old.items ++ row_line values.now) }
{
    push_apart(out, values)?;
    out.push(b'\n')?;
    Ok(())
}

/// Adds values, with tabs between them.
fn push_apart(out: &mut Vec<u8>, values: &[Value]) -> Result<(), AllocError>
    ensures { OnOk result (out.new.items ≡ out.old.items ++ apart 9 (value_text Full) values.now) }
{
    match values {
        [] => Ok(()),
        [first, later @ ..] => {
            push_value(out, NameStyle::Full, first)?;
            push_later(out, later)
        }
    }
}

/// Adds values, each after a tab.
fn push_later(out: &mut Vec<u8>, values: &[Value]) -> Result<(), AllocError>
    ensures { OnOk result (out.new.items ≡ out.old.items ++ each_after 9 (value_text Full) values.now) }
{
    for value in values {
        out.push(b'\t')?;
        push_value(out, NameStyle::Full, value)?;
    }
    Ok(())
}
