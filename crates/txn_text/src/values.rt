//! What single words write as values.

ghost use Rattle.std.specs.Prelude.{◌≡◌, ℕ, IfOk, IfSome, IsTrue, option_map};
ghost use Rattle.std.specs.Char.{is_ascii_digit};
ghost use Rattle.std.specs.List.{list_all};
ghost use Rattle.std.specs.Str.Parse.{digits_value};
ghost use Rattle.update_model.specs.Rows.{IsRowName, IsValue};
ghost use Rattle.text_words.specs.Hexadecimal.{row_of};
ghost use Rattle.txn_text.specs.Values.{value_for, value_in, row_in, plain_value, unmarked_value, literal_value};
ghost use Rattle.txn_text.specs.Values.{text_value, own_value, own_row, is_numeral};
ghost use Rattle.text_words.specs.Integers.{is_positive_numeral};

use crate::TextKind;
use crate::verb::Verb;
use std::str;
use text_words::{ByteString, Literal, Word, literal_of, row_name_of};
use update_model::{MAX_TEXT, RowName, TextValue, UpdateId, Value, check_value_text};

/// What a word writes after these first words of a line, which comes after so many operations.
pub(crate) fn value_for(verb: Verb, before: u16, word: Word) -> Result<Value, TextKind>
    ensures value { result ≡ value_for verb before word }
    ensures form { IfOk result (λ value. IsValue before value) }
{
    match verb {
        Verb::Insert { .. } => value_in(before, word),
        Verb::Delete => row_in(&word),
    }
}

/// The value that a word writes in an insert.
fn value_in(before: u16, word: Word) -> Result<Value, TextKind>
    ensures value { result ≡ value_in before word }
    ensures form { IfOk result (λ value. IsValue before value) }
{
    match word {
        Word::Plain(bytes) => plain_value(before, bytes),
        Word::Quoted(text) => text_value(text),
        Word::Open | Word::Close | Word::Comma => Err(TextKind::NotAValue),
    }
}

/// The name of a row that a word writes in a delete.
fn row_in(word: &Word) -> Result<Value, TextKind>
    ensures value { result ≡ row_in word.now }
    ensures form { (before : ℕ) → IfOk result (λ value. IsValue before value) }
{
    match word {
        Word::Plain(bytes) => match row_named(bytes.as_slice()) {
            Some(row) => Ok(Value::Row(row)),
            None => Err(TextKind::NotAValue),
        },
        _ => Err(TextKind::NotAValue),
    }
}

/// The row that bytes name.
fn row_named(bytes: &[u8]) -> Option<RowName>
    ensures value { result ≡ option_map (λ row. record { update = record { 0 = row.0 }; index = row.1 })
        (row_of bytes.now) }
    ensures form { IfSome result (λ row. IsRowName row) }
{
    let (update, index) = row_name_of(bytes)?;
    Some(RowName {
        update: UpdateId(update),
        index,
    })
}

/// What a word without quotes writes.
fn plain_value(before: u16, bytes: ByteString) -> Result<Value, TextKind>
    ensures value { result ≡ plain_value before bytes }
    ensures form { IfOk result (λ value. IsValue before value) }
{
    if let [b'$', digits @ ..] = bytes.as_slice() {
        return own_value(before, digits);
    }
    unmarked_value(bytes)
}

/// What a word writes that does not begin with `$`.
fn unmarked_value(bytes: ByteString) -> Result<Value, TextKind>
    ensures value { result ≡ unmarked_value bytes }
    ensures form { (before : ℕ) → IfOk result (λ value. IsValue before value) }
{
    if let Some(row) = row_named(bytes.as_slice()) {
        return Ok(Value::Row(row));
    }
    literal_value(literal_of(Word::Plain(bytes)))
}

/// A value that is written without quotes.
fn literal_value(literal: Option<Literal>) -> Result<Value, TextKind>
    ensures value { result ≡ literal_value literal }
    ensures form { (before : ℕ) → IfOk result (λ value. IsValue before value) }
{
    match literal {
        None => Err(TextKind::NotAValue),
        Some(Literal::Null) => Ok(Value::Null),
        Some(Literal::Integer(n)) => Ok(Value::Int(n)),
        Some(Literal::Text(text)) => text_value(text),
        Some(Literal::Flag(flag)) => Ok(Value::Flag(flag)),
    }
}

/// The value of a text.
fn text_value(text: ByteString) -> Result<Value, TextKind>
    ensures value { result ≡ text_value text }
    ensures form { (before : ℕ) → IfOk result (λ value. IsValue before value) }
{
    let bytes = text.into_vec();
    if bytes.len() > usize::from(MAX_TEXT) {
        return Err(TextKind::TextTooLong);
    }
    if !check_value_text(bytes.as_slice()) {
        return Err(TextKind::NotUtf8);
    }
    Ok(Value::Text(TextValue::from_vec(bytes)))
}

/// What stands after `$`.
fn own_value(before: u16, digits: &[u8]) -> Result<Value, TextKind>
    ensures value { result ≡ own_value before digits.now }
    ensures form { IfOk result (λ value. IsValue before value) }
{
    if !is_numeral(digits) {
        return Err(TextKind::NotAValue);
    }
    match str::from_utf8(digits) {
        Ok(text) => numbered_row(before, text),
        Err(_) => Err(TextKind::NotAValue),
    }
}

/// The row that the operation inserts whose number a text writes, of whatever size.
fn numbered_row(before: u16, text: &str) -> Result<Value, TextKind>
    requires numeral { IsTrue (is_numeral text.now) }
    ensures value { result ≡ own_row before (digits_value 10 text.now) }
    ensures form { IfOk result (λ value. IsValue before value) }
{
    match text.parse() {
        Ok(k) => own_row(before, k),
        Err(_) => Err(TextKind::LaterLine),
    }
}

/// Whether digits are a number of whatever size.
fn is_numeral(digits: &[u8]) -> bool
    ensures { result ≡ is_numeral digits.now }
{
    digits == b"0".as_slice() || is_positive_numeral(digits)
}

/// Whether bytes are digits of which the first is not 0.
fn is_positive_numeral(digits: &[u8]) -> bool
    ensures { result ≡ is_positive_numeral digits.now }
{
    match digits {
        [] | [b'0', ..] => false,
        _ => are_digits(digits),
    }
}

fn are_digits(bytes: &[u8]) -> bool
    ensures { result ≡ list_all is_ascii_digit bytes.now }
{
    bytes.iter().all(|byte| byte.is_ascii_digit())
}

/// The row that the operation with this number inserts, counted from 1.
fn own_row(before: u16, k: u16) -> Result<Value, TextKind>
    ensures value { result ≡ own_row before k }
    ensures form { IfOk result (λ value. IsValue before value) }
{
    if 1 <= k && k <= before {
        Ok(Value::Own(k - 1))
    } else {
        Err(TextKind::LaterLine)
    }
}
