//! Rows of words.

ghost use Rattle.std.specs.Prelude.{◌≡◌, ℕ, ◌++◌, List, [], ◌∷◌, IfOk, OnOk};
ghost use Rattle.explanations.specs.Rows.{begun, ended, is_inside, is_too_long as are_too_long, laid, with_byte};
ghost use Rattle.explanations.specs.Rows.{words_from, words_of};
ghost use Rattle.explanations.specs.Values.{value_of};

use crate::values::{Values, push_value};
use std::alloc::{AllocError, Global};

/// A word goes into another row where it and the row that was begun have more bytes than this together.
const WIDTH: usize = 78;

/// Adds a text in rows, of which the first begins so, and each later one with four blanks. A blank comes before each
/// word. What a mark of the text stands for counts as one word with what stands around it, whatever is in it.
pub(crate) fn push_rows(
    alloc: Global,
    out: &mut Vec<u8>,
    front: &[u8],
    text: &[u8],
    values: &Values,
) -> Result<(), AllocError>
    ensures { OnOk result (out.new.items ≡ out.old.items ++ laid front.now
        (words_of (value_of values.now.marks values.now.help.now values.now.directory.now values.now.other.now)
        text.now)) }
{
    let mut row = Vec::from_slice(alloc, front)?;
    let mut word = Vec::new(alloc);
    let mut inside = false;
    let mut rest = text;
    while let [byte, later @ ..] = rest {
        inside = push_next(out, &mut row, &mut word, *byte, inside, values)?;
        rest = later;
    }
    push_word(out, &mut row, word.as_slice())?;
    push_row(out, row.as_slice())
}

/// Adds a byte of a text to the word that was begun, or where it is a blank, the word to the rows. Answers whether the
/// next byte stands between `{` and `}`.
fn push_next(
    out: &mut Vec<u8>,
    row: &mut Vec<u8>,
    word: &mut Vec<u8>,
    byte: u8,
    inside: bool,
    values: &Values,
) -> Result<bool, AllocError>
    ensures { IfOk result (λ more. (rest : List ℕ)
        → out.new.items ++ laid row.new.items
        (words_from (value_of values.now.marks values.now.help.now values.now.directory.now values.now.other.now) more
        word.new.items rest) ≡ out.old.items ++ laid row.old.items
        (words_from (value_of values.now.marks values.now.help.now values.now.directory.now values.now.other.now) inside
        word.old.items (byte ∷ rest))) }
{
    if byte == b' ' {
        push_word(out, row, word.as_slice())?;
        word.clear();
        return Ok(false);
    }
    push_byte(word, byte, inside, values)
}

/// Adds a byte of a text to a word, or what it stands for between `{` and `}`. Answers whether the next one stands
/// there.
fn push_byte(
    word: &mut Vec<u8>,
    byte: u8,
    inside: bool,
    values: &Values,
) -> Result<bool, AllocError>
    ensures added { OnOk result (word.new.items ≡ with_byte (value_of values.now.marks values.now.help.now
        values.now.directory.now values.now.other.now) inside word.old.items byte) }
    ensures inside { IfOk result (λ more. more ≡ is_inside inside byte) }
{
    if byte == b'{' || byte == b'}' {
        return Ok(byte == b'{');
    }
    if inside {
        push_value(word, byte, values)?;
        return Ok(true);
    }
    word.push(byte)?;
    Ok(false)
}

/// Adds a word to a row, or ends the row and begins another one.
fn push_word(out: &mut Vec<u8>, row: &mut Vec<u8>, word: &[u8]) -> Result<(), AllocError>
    ensures ended { OnOk result (out.new.items ≡ out.old.items ++ ended row.old.items word.now) }
    ensures begun { OnOk result (row.new.items ≡ begun row.old.items word.now) }
{
    if is_too_long(row.as_slice(), word) {
        push_row(out, row.as_slice())?;
        row.clear();
        row.extend_from_slice(b"     ")?;
        return row.extend_from_slice(word);
    }
    row.push(b' ')?;
    row.extend_from_slice(word)
}

/// Whether a row has no room for a word.
fn is_too_long(row: &[u8], word: &[u8]) -> bool
    ensures { result ≡ are_too_long row.now word.now }
{
    row.len().saturating_add(word.len()) > WIDTH
}

/// Adds a row.
fn push_row(out: &mut Vec<u8>, row: &[u8]) -> Result<(), AllocError>
    ensures { OnOk result (out.new.items ≡ out.old.items ++ (row.now ++ 10 ∷ [])) }
{
    out.extend_from_slice(row)?;
    out.extend_from_slice(b"\n")
}
