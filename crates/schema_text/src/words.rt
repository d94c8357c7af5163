//! What single words of a line say.

ghost use Rattle.std.specs.Prelude.{◌≡◌, ◌==◌, ◌<◌, ◌∷◌, length, position, IfOk, IfSome, bytes_eq, option_map};
ghost use Rattle.text_words.specs.Literals.{value_of};
ghost use Rattle.schema_text.specs.Forms.{is_word, spelled, number_in, sign_in, action_in, null_at_end, key_in};
ghost use Rattle.schema_text.specs.Forms.{rights_in, bounds_in, path_in, values_of, value_in, row_in, keyword_of};
ghost use Rattle.schema_text.specs.Forms.{keyword_in};

use crate::form::SampleValue;
use crate::keyword::Keyword;
use byteorder::{BigEndian, ByteOrder};
use row_check::Cmp;
use schema::Action;
use std::alloc::{AllocError, Global};
use text_words::{ByteString, Literal, Word, integer_of, literal_of, row_name_of};
use update_model::{AuthorKey, RowName, UpdateId};

/// Whether a word is this one.
pub(crate) fn is_word(text: &[u8], word: &Word) -> bool
    ensures { result ≡ is_word text.now word.now }
{
    match word {
        Word::Plain(bytes) => is_text(text, bytes.as_slice()),
        _ => false,
    }
}

/// Whether bytes are this text.
fn is_text(text: &[u8], bytes: &[u8]) -> bool
    ensures { result ≡ bytes_eq bytes.now text.now }
{
    bytes == text
}

/// A word where a name stands. A quoted text keeps its opening quote, so that it is no name.
pub(crate) fn spelled(alloc: Global, word: &Word) -> Result<ByteString, AllocError>
    ensures { IfOk result (λ bytes. bytes ≡ spelled word.now) }
{
    match word {
        Word::Plain(bytes) => bytes.copy(alloc),
        Word::Quoted(bytes) => quoted(alloc, bytes.as_slice()),
        Word::Open => copied(alloc, b"("),
        Word::Close => copied(alloc, b")"),
        Word::Comma => copied(alloc, b","),
    }
}

/// Equal bytes on memory of their own.
pub(crate) fn copied(alloc: Global, bytes: &[u8]) -> Result<ByteString, AllocError>
    ensures { IfOk result (λ copy. copy ≡ bytes.now) }
{
    Ok(ByteString::from_vec(Vec::from_slice(alloc, bytes)?))
}

fn quoted(alloc: Global, text: &[u8]) -> Result<ByteString, AllocError>
    ensures { IfOk result (λ bytes. bytes ≡ 34 ∷ text.now) }
{
    let mut bytes = Vec::with_capacity(alloc, 1)?;
    bytes.push(b'"')?;
    bytes.extend_from_slice(text)?;
    Ok(ByteString::from_vec(bytes))
}

/// The integer that a word writes.
pub(crate) fn number_in(word: &Word) -> Option<i64>
    ensures { result ≡ number_in word.now }
{
    match word {
        Word::Plain(bytes) => integer_of(bytes.as_slice()),
        _ => None,
    }
}

/// The sign of a comparison.
pub(crate) fn sign_in(word: &Word) -> Option<Cmp>
    ensures { result ≡ sign_in word.now }
{
    if is_word(b"=", word) {
        Some(Cmp::Eq)
    } else if is_word(b"!=", word) {
        Some(Cmp::Ne)
    } else if is_word(b"<", word) {
        Some(Cmp::Lt)
    } else if is_word(b"<=", word) {
        Some(Cmp::Le)
    } else if is_word(b">", word) {
        Some(Cmp::Gt)
    } else if is_word(b">=", word) {
        Some(Cmp::Ge)
    } else {
        None
    }
}

/// What becomes of a row when the one that it refers to goes.
pub(crate) fn action_in(word: &Word) -> Option<Action>
    ensures { result ≡ action_in word.now }
{
    if is_word(b"RESTRICT", word) {
        Some(Action::Restrict)
    } else if is_word(b"CASCADE", word) {
        Some(Action::Cascade)
    } else if is_word(b"SETNULL", word) {
        Some(Action::SetNull)
    } else {
        None
    }
}

/// Whether NULL stands at the end of a column's line. There is no answer where something else does.
pub(crate) fn null_at_end(words: &[Word]) -> Option<bool>
    ensures { result ≡ null_at_end words.now }
{
    match words {
        [] => Some(false),
        [word] => is_word(b"NULL", word).then_some(true),
        _ => None,
    }
}

/// Whether a table is deletable and owned.
pub(crate) fn rights_in(words: &[Word]) -> Option<(bool, bool)>
    ensures { result ≡ rights_in words.now }
{
    match words {
        [] => Some((false, false)),
        [word] => is_word(b"DELETABLE", word).then_some((true, false)),
        [word, more] => {
            (is_word(b"DELETABLE", word) && is_word(b"OWNED", more)).then_some((true, true))
        }
        _ => None,
    }
}

/// Two bounds, and whether NULL stands behind them.
pub(crate) fn bounds_in(words: &[Word]) -> Option<(i64, i64, bool)>
    ensures { result ≡ bounds_in words.now }
{
    match words {
        [lo, hi, end @ ..] => {
            let lo = number_in(lo)?;
            let hi = number_in(hi)?;
            let null = null_at_end(end)?;
            Some((lo, hi, null))
        }
        _ => None,
    }
}

/// The two parts of `ref.column`.
pub(crate) fn path_in(path: &[u8]) -> Option<(&[u8], &[u8])>
    ensures { option_map (λ parts. (parts.0.now, parts.1.now)) result ≡ path_in path.now }
{
    match dot_in(path) {
        None => None,
        Some(dot) => Some((&path[..dot], &path[dot + 1..])),
    }
}

/// The place of the first dot.
fn dot_in(path: &[u8]) -> Option<usize>
    ensures place { result ≡ position (λ byte. byte == 46) path.now }
    ensures within { IfSome result (λ place. place < length path.now) }
{
    path.iter().position(|byte| *byte == b'.')
}

/// The values that words write, where each writes one.
pub(crate) fn values_of(
    alloc: Global,
    words: &[Word],
) -> Result<Option<Vec<SampleValue>>, AllocError>
    ensures { IfOk result (λ found. option_map (λ values. values.items) found ≡ values_of words.now) }
{
    let mut values = Vec::with_capacity(alloc, words.len())?;
    for word in words {
        match value_in(alloc, word)? {
            Some(value) => values.push(value)?,
            None => return Ok(None),
        }
    }
    Ok(Some(values))
}

/// The value that a word writes, names of rows included.
fn value_in(alloc: Global, word: &Word) -> Result<Option<SampleValue>, AllocError>
    ensures { IfOk result (λ found. found ≡ value_in word.now) }
{
    Ok(match value_of(alloc, word)? {
        Some(literal) => Some(SampleValue::Literal(literal)),
        None => row_in(word),
    })
}

/// The name of a row that a word writes.
fn row_in(word: &Word) -> Option<SampleValue>
    ensures { result ≡ row_in word.now }
{
    match word {
        Word::Plain(bytes) => {
            let (update, index) = row_name_of(bytes.as_slice())?;
            Some(SampleValue::Row(RowName {
                update: UpdateId(update),
                index,
            }))
        }
        _ => None,
    }
}

/// The literal that a word writes.
fn value_of(alloc: Global, word: &Word) -> Result<Option<Literal>, AllocError>
    ensures { IfOk result (λ found. found ≡ value_of word.now) }
{
    Ok(match word {
        Word::Plain(bytes) => literal_of(Word::Plain(bytes.copy(alloc)?)),
        Word::Quoted(text) => literal_of(Word::Quoted(text.copy(alloc)?)),
        Word::Open | Word::Close | Word::Comma => None,
    })
}

/// The key of these bytes.
pub(crate) fn key_in(bytes: &[u8; 56]) -> AuthorKey
    ensures { result ≡ key_in bytes.now }
{
    let mut ident = [0; 16];
    let mut root = [0; 32];
    ident.copy_from_slice(&bytes[8..24]);
    root.copy_from_slice(&bytes[24..56]);
    AuthorKey {
        lms: BigEndian::read_u32(&bytes[..4]),
        ots: BigEndian::read_u32(&bytes[4..8]),
        ident,
        root,
    }
}

/// What a line is, by its first word.
pub(crate) fn keyword_in(word: &Word) -> Option<Keyword>
    ensures { result ≡ keyword_in word.now }
{
    match word {
        Word::Plain(bytes) => keyword_of(bytes.as_slice()),
        _ => None,
    }
}

fn keyword_of(bytes: &[u8]) -> Option<Keyword>
    ensures { result ≡ keyword_of bytes.now }
{
    if is_text(b"DATABASE", bytes) {
        Some(Keyword::Database)
    } else if is_text(b"AUTHOR", bytes) {
        Some(Keyword::Author)
    } else if is_text(b"TABLE", bytes) {
        Some(Keyword::Table)
    } else if is_text(b"COLUMN", bytes) {
        Some(Keyword::Column)
    } else if is_text(b"REF", bytes) {
        Some(Keyword::Ref)
    } else if is_text(b"MATCH", bytes) {
        Some(Keyword::Match)
    } else if is_text(b"UNIQUE", bytes) {
        Some(Keyword::Unique)
    } else if is_text(b"ATMOST", bytes) {
        Some(Keyword::AtMost)
    } else if is_text(b"SAMPLE", bytes) {
        Some(Keyword::Sample)
    } else {
        None
    }
}
