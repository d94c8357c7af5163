//! Lines of a text as they are shown.

ghost use Rattle.std.specs.Prelude.{◌≡◌, ℕ, List, ◌∷◌, ◌++◌, OnOk};
ghost use Rattle.explanations.specs.Shown.{begin_of as shown_from, blank_below, caret_line};
ghost use Rattle.explanations.specs.Shown.{less_cr, padded, short_run, shortened, shortened_behind, shown};
ghost use Rattle.explanations.specs.Shown.{from_character as behind_parts, visible as as_shown, visible_of};

use crate::fronts::{behind, front_of};
use crate::numbers::push_number;
use crate::text_lines::cut_at;
use std::alloc::{AllocError, Global};

/// A run of at least so many digits is an id, of which the first ones are shown.
const ID_DIGITS: usize = 64;
/// How many digits of an id are shown.
const SHOWN_DIGITS: usize = 4;
/// Where more bytes than this stand before the column, the line is shown from the last ones before it.
const LONG_FRONT: usize = 60;
/// How many bytes before the column are shown then.
const SHORT_FRONT: usize = 41;
/// How many bytes of a line are shown.
const SHOWN_BYTES: usize = 68;

/// Adds a line of a text behind its number, and where a column is given, a line with a caret below it.
pub(crate) fn push_shown(
    alloc: Global,
    out: &mut Vec<u8>,
    number: u64,
    line: &[u8],
    column: Option<u64>,
) -> Result<(), AllocError>
    ensures { OnOk result (out.new.items ≡ out.old.items ++ shown number line.now column) }
{
    let (front, back) = cut_at(without_cr(line), column);
    let mut shown = Vec::new(alloc);
    push_short(alloc, &mut shown, front)?;
    let begin = begin_of(shown.len());
    let caret = Vec::from_slice(alloc, behind(shown.as_slice(), begin))?;
    push_short(alloc, &mut shown, back)?;
    push_padded(alloc, out, number)?;
    push_visible(out, front_of(behind(shown.as_slice(), begin), SHOWN_BYTES))?;
    out.push(b'\n')?;
    match column {
        Some(_) => push_caret(out, caret.as_slice()),
        None => Ok(()),
    }
}

/// A line without a CR at its end.
fn without_cr(line: &[u8]) -> &[u8]
    ensures { result.now ≡ less_cr line.now }
{
    if line.ends_with(b"\r") {
        &line[..line.len() - 1]
    } else {
        line
    }
}

/// From which byte on a line is shown that has so many before the column.
fn begin_of(front: usize) -> usize
    ensures { result ≡ shown_from front }
{
    if front > LONG_FRONT {
        front - SHORT_FRONT
    } else {
        0
    }
}

/// Adds bytes, and of each id in them only the first digits and `..`.
fn push_short(alloc: Global, out: &mut Vec<u8>, bytes: &[u8]) -> Result<(), AllocError>
    ensures { OnOk result (out.new.items ≡ out.old.items ++ shortened bytes.now) }
{
    let mut digits = Vec::new(alloc);
    let mut rest = bytes;
    while let [byte, later @ ..] = rest {
        push_next(out, &mut digits, *byte)?;
        rest = later;
    }
    push_run(out, digits.as_slice())
}

/// Adds a byte to digits that were begun, or adds these, and behind them a byte that is no digit.
fn push_next(out: &mut Vec<u8>, digits: &mut Vec<u8>, byte: u8) -> Result<(), AllocError>
    ensures { OnOk result ((rest : List ℕ) → out.new.items ++ shortened_behind digits.new.items rest
        ≡ out.old.items ++ shortened_behind digits.old.items (byte ∷ rest)) }
{
    if matches!(byte, b'0'..=b'9' | b'a'..=b'f') {
        digits.push(byte)?;
    } else {
        push_run(out, digits.as_slice())?;
        digits.clear();
        out.push(byte)?;
    }
    Ok(())
}

/// Adds digits, or of an id the first ones.
fn push_run(out: &mut Vec<u8>, digits: &[u8]) -> Result<(), AllocError>
    ensures { OnOk result (out.new.items ≡ out.old.items ++ short_run digits.now) }
{
    if digits.len() < ID_DIGITS {
        return out.extend_from_slice(digits);
    }
    out.extend_from_slice(front_of(digits, SHOWN_DIGITS))?;
    out.extend_from_slice(b"..")
}

/// Adds a number in at least five columns, and a line behind it.
fn push_padded(alloc: Global, out: &mut Vec<u8>, number: u64) -> Result<(), AllocError>
    ensures { OnOk result (out.new.items ≡ out.old.items ++ padded number) }
{
    let mut digits = Vec::new(alloc);
    push_number(&mut digits, number)?;
    out.extend_from_slice(behind(b"     ", digits.len()))?;
    out.extend_from_slice(digits.as_slice())?;
    out.extend_from_slice(b" | ")
}

/// Adds bytes, without those that end a character which does not begin there, and a `?` for each that controls a
/// terminal.
fn push_visible(out: &mut Vec<u8>, bytes: &[u8]) -> Result<(), AllocError>
    ensures { OnOk result (out.new.items ≡ out.old.items ++ visible_of bytes.now) }
{
    let whole = from_character(bytes);
    for byte in whole {
        out.push(visible(*byte))?;
    }
    Ok(())
}

/// The bytes from the first on that a character begins with.
fn from_character(bytes: &[u8]) -> &[u8]
    ensures { result.now ≡ behind_parts bytes.now }
{
    let mut rest = bytes;
    while let [0x80..=0xbf, later @ ..] = rest {
        rest = later;
    }
    rest
}

/// A byte as it is shown.
fn visible(byte: u8) -> u8
    ensures { result ≡ as_shown byte }
{
    match byte {
        b'\t' => byte,
        0..=0x1f | 0x7f => b'?',
        _ => byte,
    }
}

/// Adds a line with a caret behind so many characters.
fn push_caret(out: &mut Vec<u8>, front: &[u8]) -> Result<(), AllocError>
    ensures { OnOk result (out.new.items ≡ out.old.items ++ caret_line front.now) }
{
    out.extend_from_slice(b"      | ")?;
    for byte in front {
        push_below(out, *byte)?;
    }
    out.extend_from_slice(b"^\n")
}

/// Adds what stands below a byte before the caret.
fn push_below(out: &mut Vec<u8>, byte: u8) -> Result<(), AllocError>
    ensures { OnOk result (out.new.items ≡ out.old.items ++ blank_below byte) }
{
    match byte {
        b'\t' => out.extend_from_slice(b"\t"),
        0x80..=0xbf => Ok(()),
        _ => out.extend_from_slice(b" "),
    }
}
