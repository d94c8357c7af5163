//! Answers as JSON.

ghost use Rattle.std.specs.Prelude.{◌≡◌, ◌<◌, ◌++◌, IfOk, OnOk};
ghost use Rattle.std.specs.Char.{digit_char};
ghost use Rattle.query_answer.specs.Answers.{data_of};
ghost use Rattle.query_answer.specs.Json.{json_escaped, json_list, json_quoted, json_text, json_value};
ghost use Rattle.query_answer.specs.Lines.{apart, each_after};

use crate::Answer;
use std::alloc::{AllocError, Global};
use table_text::{NameStyle, push_value};
use update_model::{ByteList, Value, ValueList};

/// An answer as one JSON object (RFC 8259) without blanks, and an LF behind it: `{"columns":[..],"rows":[[..]]}`. The
/// names of rows are texts. It gives up where memory runs out.
pub fn json_lines(alloc: Global, answer: &Answer) -> Result<Vec<u8>, AllocError>
    ensures { IfOk result (λ text. text.items ≡ json_text (data_of answer.now)) }
{
    let mut out = Vec::new(alloc);
    out.extend_from_slice(b"{\"columns\":")?;
    push_names(&mut out, answer.columns.as_slice())?;
    out.extend_from_slice(b",\"rows\":")?;
    push_rows(alloc, &mut out, answer.rows.as_slice())?;
    out.extend_from_slice(b"}\n")?;
    Ok(out)
}

/// Adds the list of names.
fn push_names(out: &mut Vec<u8>, names: &[ByteList]) -> Result<(), AllocError>
    ensures { OnOk result (out.new.items ≡ out.old.items ++ json_list json_quoted names.now) }
{
    out.push(b'[')?;
    if let [first, later @ ..] = names {
        push_quoted(out, first.as_slice())?;
        push_later_names(out, later)?;
    }
    out.push(b']')?;
    Ok(())
}

/// Adds names, each after a comma.
fn push_later_names(out: &mut Vec<u8>, names: &[ByteList]) -> Result<(), AllocError>
    ensures { OnOk result (out.new.items ≡ out.old.items ++ each_after 44 json_quoted names.now) }
{
    for name in names {
        out.push(b',')?;
        push_quoted(out, name.as_slice())?;
    }
    Ok(())
}

/// Adds the list of rows.
fn push_rows(alloc: Global, out: &mut Vec<u8>, rows: &[ValueList]) -> Result<(), AllocError>
    ensures { OnOk result (out.new.items ≡ out.old.items ++ json_list (json_list json_value) rows.now) }
{
    out.push(b'[')?;
    if let [first, later @ ..] = rows {
        push_values(alloc, out, first.as_slice())?;
        push_later_rows(alloc, out, later)?;
    }
    out.push(b']')?;
    Ok(())
}

/// Adds rows, each after a comma.
fn push_later_rows(alloc: Global, out: &mut Vec<u8>, rows: &[ValueList]) -> Result<(), AllocError>
    ensures { OnOk result (out.new.items ≡ out.old.items ++ each_after 44 (json_list json_value) rows.now) }
{
    for row in rows {
        out.push(b',')?;
        push_values(alloc, out, row.as_slice())?;
    }
    Ok(())
}

/// Adds the list of values.
fn push_values(alloc: Global, out: &mut Vec<u8>, values: &[Value]) -> Result<(), AllocError>
    ensures { OnOk result (out.new.items ≡ out.old.items ++ json_list json_value values.now) }
{
    out.push(b'[')?;
    if let [first, later @ ..] = values {
        push_json(alloc, out, first)?;
        push_later_values(alloc, out, later)?;
    }
    out.push(b']')?;
    Ok(())
}

/// Adds values, each after a comma.
pub(crate) fn push_later_values(
    alloc: Global,
    out: &mut Vec<u8>,
    values: &[Value],
) -> Result<(), AllocError>
    ensures { OnOk result (out.new.items ≡ out.old.items ++ each_after 44 json_value values.now) }
{
    for value in values {
        out.push(b',')?;
        push_json(alloc, out, value)?;
    }
    Ok(())
}

/// Adds a value.
fn push_json(alloc: Global, out: &mut Vec<u8>, value: &Value) -> Result<(), AllocError>
    ensures { OnOk result (out.new.items ≡ out.old.items ++ json_value value.now) }
{
    match value {
        Value::Null => out.extend_from_slice(b"null"),
        Value::Int(_) => push_value(out, NameStyle::Full, value),
        Value::Text(text) => push_quoted(out, text.as_slice()),
        Value::Flag(true) => out.extend_from_slice(b"true"),
        Value::Flag(false) => out.extend_from_slice(b"false"),
        Value::Row(_) | Value::Own(_) => {
            let mut name = Vec::new(alloc);
            push_value(&mut name, NameStyle::Full, value)?;
            push_quoted(out, name.as_slice())
        }
    }
}

/// Adds a text in quotes.
pub(crate) fn push_quoted(out: &mut Vec<u8>, text: &[u8]) -> Result<(), AllocError>
    ensures { OnOk result (out.new.items ≡ out.old.items ++ json_quoted text.now) }
{
    out.push(b'"')?;
    for byte in text {
        push_escaped(out, *byte)?;
    }
    out.push(b'"')?;
    Ok(())
}

/// Adds one byte of a text.
fn push_escaped(out: &mut Vec<u8>, byte: u8) -> Result<(), AllocError>
    ensures { OnOk result (out.new.items ≡ out.old.items ++ json_escaped byte) }
{
    match byte {
        b'"' => out.extend_from_slice(b"\\\""),
        b'\\' => out.extend_from_slice(b"\\\\"),
        0x08 => out.extend_from_slice(b"\\b"),
        0x0c => out.extend_from_slice(b"\\f"),
        b'\n' => out.extend_from_slice(b"\\n"),
        b'\r' => out.extend_from_slice(b"\\r"),
        b'\t' => out.extend_from_slice(b"\\t"),
        0..=0x1f => {
            let (high, low) = (hex_digit(byte / 16), hex_digit(byte % 16));
            out.extend_from_slice(&[b'\\', b'u', b'0', b'0', high, low])
        }
        _ => out.extend_from_slice(&[byte]),
    }
}

/// A digit in lower-case hexadecimal.
fn hex_digit(value: u8) -> u8
    requires { value < 16 }
    ensures { result ≡ digit_char value }
{
    match value {
        0..=9 => b'0' + value,
        _ => b'a' + value - 10,
    }
}
