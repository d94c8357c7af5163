//! The words of a text with their places.

ghost use Rattle.std.specs.Prelude.{◌≡◌, ◌≤◌, ◌↔◌, length, IfOk, OnOk, IsTrue};
ghost use Rattle.update_model.specs.Text.{IsText};
ghost use Rattle.query.specs.Pieces.{placed_in, joined, spot_at, unless_bad, is_text, next_token, pieces_of_line};
ghost use Rattle.query.specs.Pieces.{pieces_of, spot_after};
ghost use Rattle.query.specs.declared.limits.TheConstants.{MAX_QUERY_BYTES};

use crate::stop::Spot;
use expression_text::{Token, token_of};
use std::alloc::{AllocError, Global};
use text_words::{Style, first_word, next_line, skip_blanks};
use update_model::check_value_text;

/// The words of a text, and their places, behind which the place of the end stands.
#[derive(Drop)]
pub(crate) struct Pieces {
    pub(crate) tokens: Vec<Token>,
    pub(crate) spots: Vec<Spot>,
}

/// The words of a text.
pub(crate) fn read_pieces(alloc: Global, text: &[u8]) -> Result<Pieces, AllocError>
    requires { length text.now ≤ MAX_QUERY_BYTES }
    ensures { IfOk result (λ pieces. placed_in pieces ≡ pieces_of text.now) }
{
    let mut pieces = Pieces {
        tokens: Vec::new(alloc),
        spots: Vec::new(alloc),
    };
    let mut end = Spot { line: 1, column: 1 };
    let mut number = 1;
    let mut rest = text;
    while let Some((line, after)) = next_line(rest) {
        push_line(alloc, &mut pieces, number, line)?;
        end = Spot {
            line: number,
            column: line.len() as u32 + 1,
        };
        number += 1;
        rest = after;
    }
    pieces.spots.push(end)?;
    Ok(pieces)
}

/// Adds the words of the line with this number.
fn push_line(alloc: Global, pieces: &mut Pieces, number: u32, line: &[u8]) -> Result<(), AllocError>
    requires { length line.now ≤ MAX_QUERY_BYTES }
    ensures { OnOk result (placed_in pieces.new ≡ joined (placed_in pieces.old) (pieces_of_line number line.now)) }
{
    let mut rest = skip_blanks(line);
    while !rest.is_empty() {
        let (token, after) = next_token(alloc, rest)?;
        pieces.tokens.push(token)?;
        pieces.spots.push(spot_at(number, line.len(), rest))?;
        rest = after;
    }
    Ok(())
}

/// The place of what begins here in the line with this number, which has so many bytes.
fn spot_at(number: u32, total: usize, start: &[u8]) -> Spot
    requires { total ≤ MAX_QUERY_BYTES }
    ensures { result ≡ spot_at number total start.now }
{
    Spot {
        line: number,
        column: total.saturating_sub(start.len()) as u32 + 1,
    }
}

/// The word that begins here, and what begins behind it.
fn next_token(alloc: Global, start: &[u8]) -> Result<(Token, &[u8]), AllocError>
    ensures { IfOk result (λ read. (read.0, read.1.now) ≡ next_token start.now) }
{
    match first_word(alloc, Style::Punctuated, start)? {
        None => Ok((Token::Bad, &[])),
        Some((word, after)) => Ok((unless_bad(token_of(alloc, &word)?), skip_blanks(after))),
    }
}

/// A word, which is bad where it is a text that no row may have.
fn unless_bad(token: Token) -> Token
    ensures { result ≡ unless_bad token }
{
    match token {
        Token::Text(bytes) => {
            if is_text(bytes.as_slice()) {
                Token::Text(bytes)
            } else {
                Token::Bad
            }
        }
        other => other,
    }
}

/// Whether a text may stand in a row.
pub(crate) fn is_text(bytes: &[u8]) -> bool
    ensures is { result ≡ is_text bytes.now }
    ensures form { IsTrue result ↔ IsText bytes.now }
{
    check_value_text(bytes)
}

/// The place after bytes, of which there are not too many.
pub(crate) fn spot_after(bytes: &[u8]) -> Spot
    requires { length bytes.now ≤ MAX_QUERY_BYTES }
    ensures { result ≡ spot_after 1 1 bytes.now }
{
    let mut line = 1;
    let mut column = 1;
    for byte in bytes {
        if *byte == b'\n' {
            line += 1;
            column = 1;
        } else {
            column += 1;
        }
    }
    Spot { line, column }
}
