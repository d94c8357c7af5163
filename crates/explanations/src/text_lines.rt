//! Lines of a text, each with a CR that it ends in.

ghost use Rattle.std.specs.Prelude.{◌≡◌, option_map, option_copied};
ghost use Rattle.explanations.specs.Texts.{before_place, from_place, is_bare, line_numbered, line_of_operation};
ghost use Rattle.explanations.specs.Texts.{some_cr};

use crate::parts::first_part;

/// The line of a text that has this number, counted from 1.
pub(crate) fn numbered_line(text: &[u8], number: u64) -> Option<&[u8]>
    ensures { option_copied result ≡ line_numbered text.now number }
{
    let mut rest = text;
    let mut left = number.checked_sub(1)?;
    while let Some((line, after)) = first_part(rest, b'\n') {
        if left == 0 {
            return Some(line);
        }
        left -= 1;
        rest = after;
    }
    None
}

/// The line of an operation, counted from 0 over the lines that are not blank, and its number, counted from 1 over all.
pub(crate) fn operation_line(text: &[u8], operation: u64) -> Option<(u64, &[u8])>
    ensures { option_map (λ read. (read.0, read.1.now)) result ≡ line_of_operation text.now operation }
{
    let mut rest = text;
    let mut number: u64 = 1;
    let mut left = operation;
    while let Some((line, after)) = first_part(rest, b'\n') {
        if !is_blank(line) {
            if left == 0 {
                return Some((number, line));
            }
            left -= 1;
        }
        number = number.saturating_add(1);
        rest = after;
    }
    None
}

/// Whether a line has blanks alone.
fn is_blank(line: &[u8]) -> bool
    ensures { result ≡ is_bare line.now }
{
    line.iter()
        .all(|byte| matches!(*byte, b' ' | b'\t' | b'\r'))
}

/// Whether a line of a text ends in a CR.
pub(crate) fn has_cr(text: &[u8]) -> bool
    ensures { result ≡ some_cr text.now }
{
    let mut rest = text;
    while let Some((line, after)) = first_part(rest, b'\n') {
        if line.ends_with(b"\r") {
            return true;
        }
        rest = after;
    }
    false
}

/// What stands before a column of a line, which is counted from 1, and the rest.
pub(crate) fn cut_at(line: &[u8], column: Option<u64>) -> (&[u8], &[u8])
    ensures before { result.0.now ≡ before_place line.now column }
    ensures behind { result.1.now ≡ from_place line.now column }
{
    let before = column.unwrap_or(0).saturating_sub(1);
    let before = usize::try_from(before).unwrap_or(usize::MAX);
    line.split_at(before.min(line.len()))
}
