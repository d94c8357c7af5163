//! Texts and files with what their names stand for.

use crate::case::Content;
use crate::fault::Fault;
use crate::names::Names;
use crate::pieces::{Piece, pieces};
use std::alloc::Global;

/// A text with what its names stand for.
pub fn filled(alloc: Global, names: &Names, text: &str) -> Result<String, Fault> {
    let pieces = pieces(alloc, text)?;
    let mut filled = String::new(alloc);
    for piece in &pieces {
        push_piece(&mut filled, names, piece)?;
    }
    Ok(filled)
}

/// Adds a piece.
fn push_piece(filled: &mut String, names: &Names, piece: &Piece) -> Result<(), Fault> {
    let text = match piece {
        Piece::Text(text) => text,
        Piece::Name(name) => match names.value(name) {
            Some(value) => value,
            None => return Err(Fault::Text("a name has taken nothing before")),
        },
    };
    filled.push_str(text)?;
    Ok(())
}

/// The bytes that a line adds to a file by itself: those of another file are none.
pub fn bytes_of(alloc: Global, names: &Names, content: &Content) -> Result<Vec<u8>, Fault> {
    let text = match *content {
        Content::Line(text) | Content::Bare(text) => filled(alloc, names, text)?,
        Content::Raw(text) => {
            let digits = filled(alloc, names, text)?;
            return digits_of(alloc, &digits);
        }
        Content::File(_) => String::new(alloc),
    };
    let mut bytes = text.as_bytes().to_vec(alloc)?;
    if let Content::Line(_) = content {
        bytes.push(b'\n')?;
    }
    Ok(bytes)
}

/// The bytes that hexadecimal digits are.
pub fn digits_of(alloc: Global, digits: &str) -> Result<Vec<u8>, Fault> {
    match hex::decode(alloc, digits) {
        Ok(bytes) => Ok(bytes),
        Err(_) => Err(Fault::Text("no bytes in hexadecimal digits")),
    }
}
