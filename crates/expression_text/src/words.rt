ghost use Rattle.std.specs.Prelude.{◌≡◌, map, take, IfOk, bytes_eq};
ghost use Rattle.expression_text.specs.Words.{token_of as token_for, keyword_of, sign_of};
ghost use Rattle.expression_text.specs.Words.{begins_as_value as begins_value, plain_token as token_unquoted};

use crate::Token;
use row_check::Cmp;
use std::alloc::{AllocError, Global};
use text_words::{Word, integer_of};
use update_model::ByteList;

/// What the words of an expression are to its grammar, one token for each word.
pub fn tokens_of(alloc: Global, words: &[Word]) -> Result<Vec<Token>, AllocError>
    ensures { IfOk result (λ tokens. tokens.items ≡ map token_for words.now) }
{
    let mut tokens = Vec::with_capacity(alloc, words.len())?;
    for word in words {
        tokens.push(token_of(alloc, word)?)?;
    }
    Ok(tokens)
}

/// What a word of an expression is to its grammar.
pub fn token_of(alloc: Global, word: &Word) -> Result<Token, AllocError>
    ensures { IfOk result (λ token. token ≡ token_for word.now) }
{
    Ok(match word {
        Word::Plain(bytes) => plain_token(alloc, bytes.as_slice())?,
        Word::Quoted(text) => Token::Text(copied(alloc, text.as_slice())?),
        Word::Open => Token::Open,
        Word::Close => Token::Close,
        Word::Comma => Token::Comma,
    })
}

fn copied(alloc: Global, bytes: &[u8]) -> Result<ByteList, AllocError>
    ensures { IfOk result (λ copy. copy ≡ bytes.now) }
{
    Ok(ByteList::from_vec(Vec::from_slice(alloc, bytes)?))
}

fn plain_token(alloc: Global, bytes: &[u8]) -> Result<Token, AllocError>
    ensures { IfOk result (λ token. token ≡ token_unquoted bytes.now) }
{
    if let Some(token) = keyword(bytes) {
        return Ok(token);
    }
    if let Some(cmp) = sign(bytes) {
        return Ok(Token::Sign(cmp));
    }
    if let Some(n) = integer_of(bytes) {
        return Ok(Token::Integer(n));
    }
    if begins_as_value(bytes) {
        return Ok(Token::Bad);
    }
    Ok(Token::Column(copied(alloc, bytes)?))
}

/// Whether bytes are this text.
fn is_text(text: &[u8], bytes: &[u8]) -> bool
    ensures { result ≡ bytes_eq bytes.now text.now }
{
    bytes == text
}

/// A keyword or a flag.
fn keyword(bytes: &[u8]) -> Option<Token>
    ensures { result ≡ keyword_of bytes.now }
{
    if is_text(b"AND", bytes) {
        Some(Token::And)
    } else if is_text(b"OR", bytes) {
        Some(Token::Or)
    } else if is_text(b"NOT", bytes) {
        Some(Token::Not)
    } else if is_text(b"IS", bytes) {
        Some(Token::Is)
    } else if is_text(b"NULL", bytes) {
        Some(Token::Null)
    } else if is_text(b"NATIVE", bytes) {
        Some(Token::Native)
    } else if is_text(b"LEN", bytes) {
        Some(Token::Len)
    } else if is_text(b"TRUE", bytes) {
        Some(Token::Flag(true))
    } else if is_text(b"FALSE", bytes) {
        Some(Token::Flag(false))
    } else {
        None
    }
}

/// A sign of comparison.
fn sign(bytes: &[u8]) -> Option<Cmp>
    ensures { result ≡ sign_of bytes.now }
{
    if is_text(b"=", bytes) {
        Some(Cmp::Eq)
    } else if is_text(b"!=", bytes) {
        Some(Cmp::Ne)
    } else if is_text(b"<", bytes) {
        Some(Cmp::Lt)
    } else if is_text(b"<=", bytes) {
        Some(Cmp::Le)
    } else if is_text(b">", bytes) {
        Some(Cmp::Gt)
    } else if is_text(b">=", bytes) {
        Some(Cmp::Ge)
    } else {
        None
    }
}

/// Whether the first byte is a digit, `-` or `$`.
fn begins_as_value(bytes: &[u8]) -> bool
    ensures { result ≡ begins_value bytes.now }
{
    match bytes {
        [] => false,
        [first, ..] => first.is_ascii_digit() || *first == b'-' || *first == b'$',
    }
}
