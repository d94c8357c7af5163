//! Whether an output is what is expected.

use crate::case::Wanted;
use crate::fault::Fault;
use crate::names::Names;
use crate::pieces::{Piece, pieces};
use std::alloc::{AllocError, Global};

/// The lines of an output, or `None` where the last one does not end.
pub fn lines_of(alloc: Global, output: &[u8]) -> Result<Option<Vec<&[u8]>>, AllocError> {
    let mut lines = Vec::new(alloc);
    if output.is_empty() {
        return Ok(Some(lines));
    }
    let Some(text) = output.strip_suffix(b"\n") else {
        return Ok(None);
    };
    for line in text.split(|byte| *byte == b'\n') {
        lines.push(line)?;
    }
    Ok(Some(lines))
}

/// Whether an output is the lines that are wanted. A name that stood for nothing takes the digits and small letters
/// that stand at its place, up to the character behind it.
pub fn fits<'a>(
    alloc: Global,
    names: &mut Names<'a>,
    wanted: &[Wanted<'a>],
    output: &[u8],
) -> Result<bool, Fault> {
    let Some(lines) = lines_of(alloc, output)? else {
        return Ok(false);
    };
    if lines.len() != wanted.len() {
        return Ok(false);
    }
    let mut is_used = vec![in alloc; false; lines.len()]?;
    for (number, line) in wanted.iter().enumerate() {
        let places = places_of(wanted, number);
        if !fits_one(alloc, names, line.text, &lines, &mut is_used, places)? {
            return Ok(false);
        }
    }
    Ok(true)
}

/// Between which two places the line of a number may stand: its own, or those of all that change places with it.
fn places_of(wanted: &[Wanted], number: usize) -> (usize, usize) {
    let mut first = number;
    let mut behind = number.saturating_add(1);
    if !is_loose(wanted, number) {
        return (first, behind);
    }
    for _ in 0..number {
        if first > 0 && is_loose(wanted, first - 1) {
            first -= 1;
        }
    }
    for place in behind..wanted.len() {
        if !is_loose(wanted, place) {
            break;
        }
        behind = place + 1;
    }
    (first, behind)
}

/// Whether the line of a number may change places.
fn is_loose(wanted: &[Wanted], number: usize) -> bool {
    match wanted.get(number) {
        Some(line) => line.in_any_order,
        None => false,
    }
}

/// Whether one of the lines between two places that were not used fits a pattern; it is used then.
fn fits_one<'a>(
    alloc: Global,
    names: &mut Names<'a>,
    pattern: &'a str,
    lines: &[&[u8]],
    is_used: &mut [bool],
    places: (usize, usize),
) -> Result<bool, Fault> {
    for place in places.0..places.1 {
        let (Some(line), Some(used)) = (lines.get(place), is_used.get_mut(place)) else {
            return Ok(false);
        };
        if !*used && fits_line(alloc, names, pattern, line)? {
            *used = true;
            return Ok(true);
        }
    }
    Ok(false)
}

/// Whether a line fits a pattern. Where it does not, no name has taken anything.
fn fits_line<'a>(
    alloc: Global,
    names: &mut Names<'a>,
    pattern: &'a str,
    line: &[u8],
) -> Result<bool, Fault> {
    let pieces = pieces(alloc, pattern)?;
    let count = names.count();
    let mut rest = line;
    for (number, piece) in pieces.iter().enumerate() {
        let stop = stop_of(&pieces, number);
        match after_piece(names, piece, stop, rest)? {
            Some(after) => rest = after,
            None => {
                names.keep(count);
                return Ok(false);
            }
        }
    }
    if !rest.is_empty() {
        names.keep(count);
    }
    Ok(rest.is_empty())
}

/// The byte that a pattern has behind the piece of a number, if that is one of a text.
fn stop_of(pieces: &[Piece], number: usize) -> Option<u8> {
    for piece in pieces.iter().skip(number).skip(1) {
        match piece {
            Piece::Text(text) if text.is_empty() => {}
            Piece::Text(text) => return text.as_bytes().first().copied(),
            Piece::Name(_) => return None,
        }
    }
    None
}

/// What a line has behind a piece, or `None` where it does not begin with that. A name that stood for nothing takes
/// what it can, at least one character.
fn after_piece<'a, 'l>(
    names: &mut Names<'a>,
    piece: &Piece<'a>,
    stop: Option<u8>,
    line: &'l [u8],
) -> Result<Option<&'l [u8]>, AllocError> {
    let name = match *piece {
        Piece::Text(text) => return Ok(line.strip_prefix(text.as_bytes())),
        Piece::Name(name) => name,
    };
    if let Some(value) = names.value(name) {
        return Ok(line.strip_prefix(value.as_bytes()));
    }
    let count = taken_count(line, stop);
    let Some((taken, after)) = line.split_at_checked(count) else {
        return Ok(None);
    };
    match str::from_utf8(taken) {
        Ok(text) if !text.is_empty() => {
            names.bind(name, text)?;
            Ok(Some(after))
        }
        _ => Ok(None),
    }
}

/// How many digits and small letters a line begins with, up to a byte.
fn taken_count(line: &[u8], stop: Option<u8>) -> usize {
    let end = line.iter().position(|byte| {
        !(byte.is_ascii_digit() || byte.is_ascii_lowercase()) || Some(*byte) == stop
    });
    end.unwrap_or(line.len())
}
