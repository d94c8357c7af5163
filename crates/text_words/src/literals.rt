ghost use Rattle.std.specs.Prelude.{◌≡◌};
ghost use Rattle.text_words.specs.Literals.{value_of, plain_literal};

use crate::{Literal, Word, integer_of};

/// The value that a word writes: `NULL`, `TRUE`, `FALSE`, an integer or a quoted text.
pub fn literal_of(word: Word) -> Option<Literal>
    ensures { result ≡ value_of word }
{
    match word {
        Word::Plain(bytes) => unquoted(bytes.as_slice()),
        Word::Quoted(text) => Some(Literal::Text(text)),
        Word::Open | Word::Close | Word::Comma => None,
    }
}

/// The value that a plain word writes.
fn unquoted(bytes: &[u8]) -> Option<Literal>
    ensures { result ≡ plain_literal bytes.now }
{
    if bytes == b"NULL".as_slice() {
        Some(Literal::Null)
    } else if bytes == b"TRUE".as_slice() {
        Some(Literal::Flag(true))
    } else if bytes == b"FALSE".as_slice() {
        Some(Literal::Flag(false))
    } else {
        integer_of(bytes).map(Literal::Integer)
    }
}
