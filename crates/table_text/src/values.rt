ghost use Rattle.std.specs.Prelude.{◌≡◌, ◌+◌, ◌∷◌, ◌++◌, OnOk, OnErr};
ghost use mathlib.Core.List.{IsPrefix};
ghost use Rattle.std.specs.Fmt.{decimal};
ghost use Rattle.table_text.specs.Values.{value_text, values_text};

use crate::NameStyle;
use crate::names::push_row_name;
use crate::numbers::{push_integer, push_number};
use std::alloc::AllocError;
use text_words::push_quoted;
use update_model::Value;

/// Adds a value at the end: `NULL`, `TRUE`, `FALSE`, an integer in decimal, a text in quotes as `text_words` prints it,
/// or the name of a row. A reference to an earlier operation of the same update is `$` and that operation's number
/// from 1.
pub fn push_value(out: &mut Vec<u8>, style: NameStyle, value: &Value) -> Result<(), AllocError>
    ensures added { OnOk result (out.new.items ≡ out.old.items ++ value_text style value.now) }
    ensures kept { OnErr result (IsPrefix out.old.items out.new.items) }
{
    match value {
        Value::Null => out.extend_from_slice(b"NULL"),
        Value::Int(n) => push_integer(out, *n),
        Value::Text(text) => push_quoted(out, text.as_slice()),
        Value::Flag(true) => out.extend_from_slice(b"TRUE"),
        Value::Flag(false) => out.extend_from_slice(b"FALSE"),
        Value::Row(name) => push_row_name(out, style, name),
        Value::Own(index) => push_own(out, *index),
    }
}

/// Adds values at the end, each after a blank.
pub(crate) fn push_values(
    out: &mut Vec<u8>,
    style: NameStyle,
    values: &[Value],
) -> Result<(), AllocError>
    ensures added { OnOk result (out.new.items ≡ out.old.items ++ values_text style values.now) }
    ensures kept { OnErr result (IsPrefix out.old.items out.new.items) }
{
    for value in values {
        out.push(b' ')?;
        push_value(out, style, value)?;
    }
    Ok(())
}

/// Adds a reference to the operation with this number, which counts from 0, of the same update.
fn push_own(out: &mut Vec<u8>, index: u16) -> Result<(), AllocError>
    ensures added { OnOk result (out.new.items ≡ out.old.items ++ 36 ∷ decimal (index + 1)) }
    ensures kept { OnErr result (IsPrefix out.old.items out.new.items) }
{
    out.push(b'$')?;
    push_number(out, u32::from(index) + 1)
}
