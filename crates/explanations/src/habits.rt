//! What people write by habit.

ghost use Rattle.std.specs.Prelude.{◌≡◌, position};
ghost use Rattle.std.specs.List.{position_or_len};
ghost use Rattle.explanations.specs.Habits.{clause_entry, ends_habit, front_word, habit_entry, keyword_entry};
ghost use Rattle.explanations.specs.Habits.{names_function, sign_entry, text_entry, word_entry};

use crate::text_lines::cut_at;
use crate::words::{is_aggregate, is_among, is_keyword};
use text_words::skip_blanks;

/// The entry of the table for what people write by habit, where a line has it at a column, or else at its begin. There
/// is none for the empty text.
pub(crate) fn habit_of(number: u64, line: &[u8], column: Option<u64>) -> &'static [u8]
    ensures { result.now ≡ habit_entry number line.now column }
{
    if number == 1 && line.starts_with(b"\xef\xbb\xbf") {
        return b"habit byte order mark";
    }
    let (before, behind) = cut_at(line, column);
    habit_text(before, skip_blanks(behind))
}

/// The entry for what stands behind blanks, and for what stands before them.
fn habit_text(before: &[u8], rest: &[u8]) -> &'static [u8]
    ensures { result.now ≡ text_entry before.now rest.now }
{
    if rest.starts_with(b"'") {
        b"habit single quote"
    } else if rest.starts_with(b"(") && names_function(before) {
        b"habit aggregate"
    } else {
        habit_word(word_at_front(rest))
    }
}

/// Whether a text ends in the name of a function over many rows.
fn names_function(text: &[u8]) -> bool
    ensures { result ≡ names_function text.now }
{
    text.ends_with(b"COUNT")
        || text.ends_with(b"count")
        || text.ends_with(b"SUM")
        || text.ends_with(b"sum")
        || text.ends_with(b"MIN")
        || text.ends_with(b"min")
        || text.ends_with(b"MAX")
        || text.ends_with(b"max")
        || text.ends_with(b"AVG")
        || text.ends_with(b"avg")
}

/// What stands before the first blank, parenthesis or comma.
fn word_at_front(text: &[u8]) -> &[u8]
    ensures { result.now ≡ front_word text.now }
{
    &text[..end_of_word(text)]
}

/// Where it stands, or how long the text is.
fn end_of_word(text: &[u8]) -> usize
    ensures { result ≡ position_or_len ends_habit text.now }
{
    place_of_end(text).unwrap_or(text.len())
}

/// Where it stands.
fn place_of_end(text: &[u8]) -> Option<usize>
    ensures { result ≡ position ends_habit text.now }
{
    text.iter().position(|byte| is_end(*byte))
}

/// Whether a byte ends a word.
fn is_end(byte: u8) -> bool
    ensures { result ≡ ends_habit byte }
{
    matches!(byte, b' ' | b'\t' | b'(' | b')' | b',')
}

/// The entry for a word.
fn habit_word(word: &[u8]) -> &'static [u8]
    ensures { result.now ≡ word_entry word.now }
{
    if word.ends_with(b";") {
        b"habit semicolon"
    } else if is_aggregate(word) {
        b"habit aggregate"
    } else if is_keyword(word) {
        b"habit small letters"
    } else {
        habit_keyword(word)
    }
}

/// The entry for a keyword of another language.
fn habit_keyword(word: &[u8]) -> &'static [u8]
    ensures { result.now ≡ keyword_entry word.now }
{
    if is_among(word, b"AS as") {
        b"habit as"
    } else if is_among(word, b"JOIN join INNER LEFT CROSS") {
        b"habit join"
    } else if is_among(word, b"LIKE like GLOB ILIKE REGEXP") {
        b"habit like"
    } else if is_among(word, b"SET set UPDATE update") {
        b"habit update"
    } else {
        habit_sign(word)
    }
}

/// The entry for a comparison of another language.
fn habit_sign(word: &[u8]) -> &'static [u8]
    ensures { result.now ≡ sign_entry word.now }
{
    if is_among(word, b"IN in") {
        b"habit in"
    } else if is_among(word, b"BETWEEN between") {
        b"habit between"
    } else if is_among(word, b"NOT NULL") {
        b"habit null"
    } else if is_among(word, b"<> ==") {
        b"habit equal"
    } else {
        habit_clause(word)
    }
}

/// The entry for a clause of another language.
fn habit_clause(word: &[u8]) -> &'static [u8]
    ensures { result.now ≡ clause_entry word.now }
{
    if is_among(word, b"INTO into VALUES values") {
        b"habit into"
    } else if is_among(word, b"OFFSET offset") {
        b"habit offset"
    } else {
        b""
    }
}
