//! Texts in which names stand: `[NAME]`, and `[[` for a bracket.

use crate::fault::Fault;
use std::alloc::Global;

/// A piece of such a text.
#[derive(Clone, Copy)]
pub(crate) enum Piece<'a> {
    /// A text, which may be empty.
    Text(&'a str),
    /// A name.
    Name(&'a str),
}

/// The pieces of a text.
pub(crate) fn pieces<'a>(alloc: Global, text: &'a str) -> Result<Vec<Piece<'a>>, Fault> {
    let mut pieces = Vec::new(alloc);
    let mut is_text = true;
    for part in text.split('[') {
        if is_text {
            pieces.push(Piece::Text(part))?;
            is_text = false;
        } else if part.is_empty() {
            pieces.push(Piece::Text("["))?;
            is_text = true;
        } else {
            push_name(&mut pieces, part)?;
        }
    }
    if is_text {
        return Err(Fault::Text("a [ ends the line: write [["));
    }
    Ok(pieces)
}

/// Adds the name that a part begins with, up to its bracket, and what stands behind.
fn push_name<'a>(pieces: &mut Vec<Piece<'a>>, part: &'a str) -> Result<(), Fault> {
    match part.split_once(']') {
        Some((name, rest)) if is_name(name) => {
            pieces.push(Piece::Name(name))?;
            pieces.push(Piece::Text(rest))?;
            Ok(())
        }
        _ => Err(Fault::Text("no name behind a [: write [[ for a bracket")),
    }
}

/// Whether a text is a name: a capital, and then capitals and digits.
fn is_name(text: &str) -> bool {
    match text.as_bytes() {
        [first, rest @ ..] => first.is_ascii_uppercase() && rest.iter().all(is_of_name),
        [] => false,
    }
}

/// Whether a byte may stand in a name behind its first.
fn is_of_name(byte: &u8) -> bool {
    byte.is_ascii_uppercase() || byte.is_ascii_digit()
}
