//! Values in a line.

ghost use Rattle.std.specs.Prelude.{◌≡◌, ◌++◌, OnOk};
ghost use Rattle.query_answer.specs.Lines.{apart, each_after};
ghost use Rattle.csv_text.specs.Csv.{csv_byte, csv_quoted, csv_value};

use std::alloc::AllocError;
use table_text::{NameStyle, push_value};
use update_model::Value;

/// Adds values, with commas between them.
pub(crate) fn push_values(out: &mut Vec<u8>, values: &[Value]) -> Result<(), AllocError>
    ensures { OnOk result (out.new.items ≡ out.old.items ++ apart 44 csv_value values.now) }
{
    match values {
        [] => Ok(()),
        [first, later @ ..] => {
            push_field(out, first)?;
            push_later(out, later)
        }
    }
}

/// Adds values, each after a comma.
fn push_later(out: &mut Vec<u8>, values: &[Value]) -> Result<(), AllocError>
    ensures { OnOk result (out.new.items ≡ out.old.items ++ each_after 44 csv_value values.now) }
{
    for value in values {
        out.push(b',')?;
        push_field(out, value)?;
    }
    Ok(())
}

/// Adds a value.
fn push_field(out: &mut Vec<u8>, value: &Value) -> Result<(), AllocError>
    ensures { OnOk result (out.new.items ≡ out.old.items ++ csv_value value.now) }
{
    match value {
        Value::Null => Ok(()),
        Value::Text(text) => push_quoted(out, text.as_slice()),
        _ => push_value(out, NameStyle::Full, value),
    }
}

/// Adds a text in quotes.
fn push_quoted(out: &mut Vec<u8>, text: &[u8]) -> Result<(), AllocError>
    ensures { OnOk result (out.new.items ≡ out.old.items ++ csv_quoted text.now) }
{
    out.push(b'"')?;
    for byte in text {
        push_byte(out, *byte)?;
    }
    out.push(b'"')?;
    Ok(())
}

/// Adds one byte of a text.
fn push_byte(out: &mut Vec<u8>, byte: u8) -> Result<(), AllocError>
    ensures { OnOk result (out.new.items ≡ out.old.items ++ csv_byte byte) }
{
    match byte {
        b'"' => out.extend_from_slice(b"\"\""),
        _ => out.extend_from_slice(&[byte]),
    }
}
