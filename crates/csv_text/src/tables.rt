//! Lines of an answer.

ghost use Rattle.std.specs.Prelude.{◌≡◌, ◌++◌, IfOk, OnOk};
ghost use Rattle.std.specs.List.{flat_map};
ghost use Rattle.query_answer.specs.Answers.{data_of};
ghost use Rattle.query_answer.specs.Lines.{apart, each_after};
ghost use Rattle.csv_text.specs.Csv.{csv_header, csv_line, csv_name, csv_text};

use crate::values::push_values;
use query_answer::Answer;
use std::alloc::{AllocError, Global};
use update_model::{ByteList, Value, ValueList};

/// An answer as comma-separated values: a header with the names of the columns, and a line for each row, each with an
/// LF behind it. It gives up where memory runs out.
pub fn csv(alloc: Global, answer: &Answer) -> Result<Vec<u8>, AllocError>
    ensures { IfOk result (λ text. text.items ≡ csv_text (data_of answer.now)) }
{
    let mut out = Vec::new(alloc);
    push_header(&mut out, answer.columns.as_slice())?;
    push_lines(&mut out, answer.rows.as_slice())?;
    Ok(out)
}

/// Adds the line of the names of columns.
fn push_header(out: &mut Vec<u8>, names: &[ByteList]) -> Result<(), AllocError>
    ensures { OnOk result (out.new.items ≡ out.old.items ++ csv_header names.now) }
{
    push_names(out, names)?;
    out.extend_from_slice(b"\n")
}

/// Adds names, with commas between them.
fn push_names(out: &mut Vec<u8>, names: &[ByteList]) -> Result<(), AllocError>
    ensures { OnOk result (out.new.items ≡ out.old.items ++ apart 44 csv_name names.now) }
{
    match names {
        [] => Ok(()),
        [first, later @ ..] => {
            out.extend_from_slice(first.as_slice())?;
            push_later_names(out, later)
        }
    }
}

/// Adds names, each after a comma.
fn push_later_names(out: &mut Vec<u8>, names: &[ByteList]) -> Result<(), AllocError>
    ensures { OnOk result (out.new.items ≡ out.old.items ++ each_after 44 csv_name names.now) }
{
    for name in names {
        out.push(b',')?;
        out.extend_from_slice(name.as_slice())?;
    }
    Ok(())
}

/// Adds the line of each row.
fn push_lines(out: &mut Vec<u8>, rows: &[ValueList]) -> Result<(), AllocError>
    ensures { OnOk result (out.new.items ≡ out.old.items ++ flat_map csv_line rows.now) }
{
    for row in rows {
        push_line(out, row.as_slice())?;
    }
    Ok(())
}

/// Adds the line of a row.
fn push_line(out: &mut Vec<u8>, values: &[Value]) -> Result<(), AllocError>
    ensures { OnOk result (out.new.items ≡ out.old.items ++ csv_line values.now) }
{
    push_values(out, values)?;
    out.extend_from_slice(b"\n")
}
