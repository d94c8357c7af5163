//! Values as they are printed, in the forms that are read.

ghost use Rattle.std.specs.Prelude.{◌≡◌, ◌<◌, ◌++◌, OnOk, OnErr};
ghost use mathlib.Core.List.{IsPrefix};
ghost use Rattle.std.specs.Char.{digit_char};
ghost use Rattle.text_words.specs.Printing.{escaped, quoted, literal_text};

use crate::Literal;
use std::alloc::{AllocError, Global};

/// Adds a value at the end, as it is read: `NULL`, `TRUE`, `FALSE`, an integer in decimal, or a text in quotes.
pub fn push_literal(alloc: Global, out: &mut Vec<u8>, literal: &Literal) -> Result<(), AllocError>
    ensures added { OnOk result (out.new.items ≡ out.old.items ++ literal_text literal.now) }
    ensures kept { OnErr result (IsPrefix out.old.items out.new.items) }
{
    match literal {
        Literal::Null => out.extend_from_slice(b"NULL"),
        Literal::Flag(true) => out.extend_from_slice(b"TRUE"),
        Literal::Flag(false) => out.extend_from_slice(b"FALSE"),
        Literal::Integer(n) => out.extend_from_slice(format!(in alloc; "{n}")?.as_bytes()),
        Literal::Text(text) => push_quoted(out, text.as_slice()),
    }
}

/// Adds a text in quotes at the end: `\"`, `\\`, `\n` and `\t` for these bytes, `\x` and two digits for other bytes
/// below 20 and for 7f hexadecimal, and all else as it is.
pub fn push_quoted(out: &mut Vec<u8>, text: &[u8]) -> Result<(), AllocError>
    ensures added { OnOk result (out.new.items ≡ out.old.items ++ quoted text.now) }
    ensures kept { OnErr result (IsPrefix out.old.items out.new.items) }
{
    out.push(b'"')?;
    for byte in text {
        push_escaped(out, *byte)?;
    }
    out.push(b'"')?;
    Ok(())
}

/// Adds one byte of a text.
fn push_escaped(out: &mut Vec<u8>, byte: u8) -> Result<(), AllocError>
    ensures added { OnOk result (out.new.items ≡ out.old.items ++ escaped byte) }
    ensures kept { OnErr result (IsPrefix out.old.items out.new.items) }
{
    match byte {
        b'"' => out.extend_from_slice(b"\\\""),
        b'\\' => out.extend_from_slice(b"\\\\"),
        b'\n' => out.extend_from_slice(b"\\n"),
        b'\t' => out.extend_from_slice(b"\\t"),
        0..=0x1f | 0x7f => {
            out.extend_from_slice(&[b'\\', b'x', hex_digit(byte / 16), hex_digit(byte % 16)])
        }
        _ => out.extend_from_slice(&[byte]),
    }
}

/// The lower-case digit of a value below 16.
fn hex_digit(value: u8) -> u8
    requires { value < 16 }
    ensures { result ≡ digit_char value }
{
    match value {
        0..=9 => b'0' + value,
        _ => b'a' + value - 10,
    }
}
