//! The name of a database.

ghost use Rattle.std.specs.Prelude.{◌≡◌, IfOk, option_copied};
ghost use Rattle.text_words.specs.declared.style.Style.TheVariants.{Spaced};
ghost use Rattle.text_words.specs.Words.{words_of};
ghost use Rattle.page_text.specs.Naming.{database_name, name_behind, name_in_line, name_in_words, plain_name};

use std::alloc::{AllocError, Global};
use text_words::{ByteString, Word, next_line, plain_words};

/// The name that the text of a schema gives its database, in the line that begins with `DATABASE`. It is empty where no
/// line does, which no text of a schema lacks. It gives up where memory runs out.
pub fn database_name(alloc: Global, text: &[u8]) -> Result<ByteString, AllocError>
    ensures { IfOk result (λ name. name ≡ database_name text.now) }
{
    let mut rest = text;
    while let Some((line, after)) = next_line(rest) {
        if let Some(name) = name_in_line(alloc, line)? {
            return Ok(name);
        }
        rest = after;
    }
    Ok(ByteString::from_vec(Vec::new(alloc)))
}

/// The name that a line gives.
fn name_in_line(alloc: Global, line: &[u8]) -> Result<Option<ByteString>, AllocError>
    ensures { IfOk result (λ name. name ≡ name_in_line (words_of Spaced line.now)) }
{
    let Some(words) = plain_words(alloc, line)? else {
        return Ok(None);
    };
    match name_in_words(words.as_slice()) {
        Some(name) => Ok(Some(ByteString::from_vec(Vec::from_slice(alloc, name)?))),
        None => Ok(None),
    }
}

/// The name that the words of a line give.
fn name_in_words(words: &[Word]) -> Option<&[u8]>
    ensures { option_copied result ≡ name_in_words words.now }
{
    match words {
        [Word::Plain(keyword), later @ ..] => name_behind(keyword.as_slice(), later),
        _ => None,
    }
}

/// The name that these words give behind a keyword.
fn name_behind<'a>(keyword: &[u8], words: &'a [Word]) -> Option<&'a [u8]>
    ensures { option_copied result ≡ name_behind keyword.now words.now }
{
    match words {
        [word, ..] if keyword == b"DATABASE".as_slice() => plain_name(word),
        _ => None,
    }
}

/// The name that a word is.
fn plain_name(word: &Word) -> Option<&[u8]>
    ensures { option_copied result ≡ plain_name word.now }
{
    match word {
        Word::Plain(bytes) => Some(bytes.as_slice()),
        _ => None,
    }
}
