ghost use Rattle.std.specs.Prelude.{◌≡◌, option_map, position, IfOk};
ghost use Rattle.std.specs.List.{position_or_len};
ghost use Rattle.text_words.specs.Words.{skip_blanks as after_blanks, passed_over, first_word as word_at_front};
ghost use Rattle.text_words.specs.Words.{quoted_word as quoted_at, plain_word as plain_at, words_of, mark_of};
ghost use Rattle.text_words.specs.Words.{is_end as is_end_byte, ends_word as word_ends};
ghost use Rattle.text_words.specs.declared.style.Style.TheVariants.{Spaced, Punctuated};

use crate::quoting::text_of;
use crate::{ByteString, Style, Word};
use std::alloc::{AllocError, Global};

/// The words of a line that stand apart by blanks alone. There are none where a quoted text in it is bad.
pub fn plain_words(alloc: Global, line: &[u8]) -> Result<Option<Vec<Word>>, AllocError>
    ensures { IfOk result (λ found. option_map (λ words. words.items) found ≡ words_of Spaced line.now) }
{
    words(alloc, Style::Spaced, line)
}

/// The words of a line in which `(`, `)` and `,` are words by themselves. There are none where a quoted text in it is
/// bad.
pub fn expression_words(alloc: Global, line: &[u8]) -> Result<Option<Vec<Word>>, AllocError>
    ensures { IfOk result (λ found. option_map (λ words. words.items) found ≡ words_of Punctuated line.now) }
{
    words(alloc, Style::Punctuated, line)
}

/// The words of a line. There are none where a quoted text in it is bad: one without its closing quote, with an
/// escape that is none, with a byte below 20 hexadecimal, or with a word directly after its closing quote.
pub fn words(alloc: Global, style: Style, line: &[u8]) -> Result<Option<Vec<Word>>, AllocError>
    ensures { IfOk result (λ found. option_map (λ words. words.items) found ≡ words_of style line.now) }
{
    let mut words = Vec::new(alloc);
    let mut rest = skip_blanks(line);
    while !rest.is_empty() {
        let Some((word, after)) = first_word(alloc, style, rest)? else {
            return Ok(None);
        };
        words.push(word)?;
        rest = skip_blanks(after);
    }
    Ok(Some(words))
}

/// Whether a line has no word, or its first word begins with `#`.
pub fn is_passed_over(line: &[u8]) -> bool
    ensures { result ≡ passed_over line.now }
{
    match skip_blanks(line) {
        [] => true,
        [first, ..] => *first == b'#',
    }
}

/// The bytes from the first on that is neither a space nor a tab.
pub fn skip_blanks(bytes: &[u8]) -> &[u8]
    ensures { result.now ≡ after_blanks bytes.now }
{
    let mut rest = bytes;
    while let [b' ' | b'\t', after @ ..] = rest {
        rest = after;
    }
    rest
}

/// The word that begins at the first byte, and the bytes after it. There is none where that is a bad quoted text, or
/// where there is no byte.
///
/// With [`skip_blanks`] before it, it reads a line word by word, where callers need the place of each word, or want a
/// fault before a bad text: a word's place is the length of the line less the length of what it begins.
#[tactic(auto, unfolding(crate::specs::Words::first_word))]
pub fn first_word(
    alloc: Global,
    style: Style,
    bytes: &[u8],
) -> Result<Option<(Word, &[u8])>, AllocError>
    ensures { IfOk result (λ found. option_map (λ read. (read.0, read.1.now)) found ≡ word_at_front style bytes.now) }
{
    let [first, rest @ ..] = bytes else {
        return Ok(None);
    };
    if *first == b'"' {
        return quoted_word(alloc, style, rest);
    }
    if let Some(mark) = mark(style, *first) {
        return Ok(Some((mark, rest)));
    }
    Ok(Some(plain_word(alloc, style, *first, rest)?))
}

/// What follows an opening quote as a word: a text up to its closing quote, where a word ends.
fn quoted_word(
    alloc: Global,
    style: Style,
    bytes: &[u8],
) -> Result<Option<(Word, &[u8])>, AllocError>
    ensures { IfOk result (λ found. option_map (λ read. (read.0, read.1.now)) found ≡ quoted_at style bytes.now) }
{
    let Some((text, rest)) = text_of(alloc, bytes)? else {
        return Ok(None);
    };
    if !ends_word(style, rest) {
        return Ok(None);
    }
    Ok(Some((Word::Quoted(text), rest)))
}

/// The first byte and the bytes up to the next that ends a word.
fn plain_word(
    alloc: Global,
    style: Style,
    first: u8,
    rest: &[u8],
) -> Result<(Word, &[u8]), AllocError>
    ensures { IfOk result (λ read. (read.0, read.1.now) ≡ plain_at style first rest.now) }
{
    let length = length_to_end(style, rest);
    let (more, after) = rest.split_at(length);
    let mut bytes = Vec::with_capacity(alloc, 1 + length)?;
    bytes.push(first)?;
    bytes.extend_from_slice(more)?;
    Ok((Word::Plain(ByteString::from_vec(bytes)), after))
}

/// How many bytes stand before the first that ends a word.
fn length_to_end(style: Style, bytes: &[u8]) -> usize
    ensures { result ≡ position_or_len (is_end_byte style) bytes.now }
{
    place_of_end(style, bytes).unwrap_or(bytes.len())
}

fn place_of_end(style: Style, bytes: &[u8]) -> Option<usize>
    ensures { result ≡ position (is_end_byte style) bytes.now }
{
    bytes.iter().position(|byte| is_end(style, *byte))
}

fn ends_word(style: Style, bytes: &[u8]) -> bool
    ensures { result ≡ word_ends style bytes.now }
{
    match bytes {
        [] => true,
        [first, ..] => is_end(style, *first),
    }
}

/// Whether a byte belongs to no word that began before it.
fn is_end(style: Style, byte: u8) -> bool
    ensures { result ≡ is_end_byte style byte }
{
    byte == b' ' || byte == b'\t' || mark(style, byte).is_some()
}

/// The word that a byte is by itself.
fn mark(style: Style, byte: u8) -> Option<Word>
    ensures { result ≡ mark_of style byte }
{
    match (style, byte) {
        (Style::Punctuated, b'(') => Some(Word::Open),
        (Style::Punctuated, b')') => Some(Word::Close),
        (Style::Punctuated, b',') => Some(Word::Comma),
        _ => None,
    }
}
