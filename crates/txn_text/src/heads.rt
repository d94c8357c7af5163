//! The first words of a line.

ghost use Rattle.std.specs.Prelude.{◌≡◌, ◌<◌, length, Ok, Err, option_map, IfOk, IfErr, IfSome};
ghost use Rattle.txn_text.specs.Operations.{wrong_at, keyword_in, keyword_at, table_named, insert_into, insert_at};
ghost use Rattle.txn_text.specs.Operations.{verb_after, verb_at};
ghost use Rattle.txn_text.specs.Outcome.{IsStop, IsVerb};

use crate::TextKind;
use crate::keyword::Keyword;
use crate::stop::{Stop, Wrong};
use crate::verb::Verb;
use schema::Schema;
use std::alloc::{AllocError, Global};
use std::str;
use text_words::{Style, Word, first_word, skip_blanks};
use update_model::MAX_OPS;

/// What is wrong with the word that begins here, or with the line's end.
pub(crate) fn wrong_at(kind: TextKind, start: &[u8]) -> Wrong
    ensures { result ≡ wrong_at kind start.now }
{
    Wrong {
        kind,
        left: start.len(),
    }
}

/// What a line does that begins here after so many operations, and what stands after the words that say so.
pub(crate) fn verb_at<'a>(
    alloc: Global,
    schema: &Schema,
    before: u16,
    start: &'a [u8],
) -> Result<(Verb, &'a [u8]), Stop>
    ensures found { IfOk result (λ read. verb_at schema.now.tables before start.now ≡ Ok (read.0, read.1.now)) }
    ensures form { IfOk result (λ read. IsVerb read.0) }
    ensures wrong { IfErr result (λ stop. IsStop stop (λ wrong. verb_at schema.now.tables before start.now ≡ Err wrong)) }
{
    match keyword_at(alloc, start)? {
        None => Err(Stop::Fault(wrong_at(TextKind::UnknownWord, start))),
        Some((keyword, after)) if before < MAX_OPS => verb_after(alloc, schema, keyword, after),
        Some(_) => Err(Stop::Fault(wrong_at(TextKind::TooManyOperations, start))),
    }
}

/// The keyword that begins here, and what stands after it.
fn keyword_at(alloc: Global, start: &[u8]) -> Result<Option<(Keyword, &[u8])>, AllocError>
    ensures { IfOk result (λ found. option_map (λ read. (read.0, read.1.now)) found ≡ keyword_at start.now) }
{
    let Some((word, after)) = first_word(alloc, Style::Spaced, start)? else {
        return Ok(None);
    };
    match keyword_in(&word) {
        Some(keyword) => Ok(Some((keyword, after))),
        None => Ok(None),
    }
}

/// The keyword that a word is.
fn keyword_in(word: &Word) -> Option<Keyword>
    ensures { result ≡ keyword_in word.now }
{
    let Word::Plain(bytes) = word else {
        return None;
    };
    if bytes.as_slice() == b"INSERT".as_slice() {
        Some(Keyword::Insert)
    } else if bytes.as_slice() == b"DELETE".as_slice() {
        Some(Keyword::Delete)
    } else {
        None
    }
}

/// What follows a keyword: after `INSERT` a table.
fn verb_after<'a>(
    alloc: Global,
    schema: &Schema,
    keyword: Keyword,
    after: &'a [u8],
) -> Result<(Verb, &'a [u8]), Stop>
    ensures found { IfOk result (λ read. verb_after schema.now.tables keyword after.now ≡ Ok (read.0, read.1.now)) }
    ensures form { IfOk result (λ read. IsVerb read.0) }
    ensures wrong { IfErr result (λ stop. IsStop stop (λ wrong. verb_after schema.now.tables keyword after.now ≡ Err
        wrong)) }
{
    match keyword {
        Keyword::Insert => insert_at(alloc, schema, skip_blanks(after)),
        Keyword::Delete => Ok((Verb::Delete, after)),
    }
}

/// The insert into the table that is named here, and what stands after the name.
fn insert_at<'a>(alloc: Global, schema: &Schema, start: &'a [u8]) -> Result<(Verb, &'a [u8]), Stop>
    ensures found { IfOk result (λ read. insert_at schema.now.tables start.now ≡ Ok (read.0, read.1.now)) }
    ensures form { IfOk result (λ read. IsVerb read.0) }
    ensures wrong { IfErr result (λ stop. IsStop stop (λ wrong. insert_at schema.now.tables start.now ≡ Err wrong)) }
{
    if let Some((word, after)) = first_word(alloc, Style::Spaced, start)? {
        if let Some(verb) = insert_into(schema, &word) {
            return Ok((verb, after));
        }
    }
    Err(Stop::Fault(wrong_at(TextKind::UnknownTable, start)))
}

/// The insert into the table that a word names.
fn insert_into(schema: &Schema, word: &Word) -> Option<Verb>
    ensures found { result ≡ insert_into schema.now.tables word.now }
    ensures form { IfSome result (λ verb. IsVerb verb) }
{
    let Word::Plain(name) = word else {
        return None;
    };
    let table = table_named(schema, name.as_slice())?;
    let _number = schema.tables(); // what every schema keeps
    let columns = schema.table(table).columns.as_slice().len();
    Some(Verb::Insert { table, columns })
}

/// The number of the table with this name.
fn table_named(schema: &Schema, name: &[u8]) -> Option<u8>
    ensures found { result ≡ table_named schema.now.tables name.now }
    ensures within { IfSome result (λ number. number < length schema.now.tables) }
{
    match str::from_utf8(name) {
        Ok(name) => schema.table_named(name),
        Err(_) => None,
    }
}
