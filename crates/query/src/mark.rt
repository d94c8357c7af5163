//! What a word is to a query.

ghost use Rattle.std.specs.Prelude.{◌≡◌};
ghost use Rattle.query.specs.Grammar.{mark_of, word_mark, limit_of};

use expression_text::Token;

/// What a word is to a query.
#[derive(Clone, Copy)]
pub(crate) enum Mark {
    /// `SELECT`
    Select,
    /// `FROM`
    From,
    /// `WHERE`
    Where,
    /// `ORDER`
    Order,
    /// `BY`
    By,
    /// `LIMIT`
    Limit,
    /// `DESC`
    Desc,
    /// `ROW`
    Row,
    /// `*`
    Star,
    /// `,`
    Comma,
    /// A word that may name a table or a column.
    Name,
    /// A number that may stand behind `LIMIT`.
    Number,
    /// A word that begins as a value and is none.
    Bad,
    /// Any other word.
    Other,
}

/// What a word is to a query.
pub(crate) fn mark_of(token: &Token) -> Mark
    ensures { result ≡ mark_of token.now }
{
    match token {
        Token::Column(bytes) => word_mark(bytes.as_slice()),
        Token::Integer(n) => match limit_of(*n) {
            Some(_) => Mark::Number,
            None => Mark::Other,
        },
        Token::Comma => Mark::Comma,
        Token::Bad => Mark::Bad,
        _ => Mark::Other,
    }
}

/// A number of 32 bits.
pub(crate) fn limit_of(n: i64) -> Option<u32>
    ensures { result ≡ limit_of n }
{
    u32::try_from(n).ok()
}

/// A keyword, or the name of a column or a table.
fn word_mark(bytes: &[u8]) -> Mark
    ensures { result ≡ word_mark bytes.now }
{
    if bytes == b"SELECT".as_slice() {
        Mark::Select
    } else if bytes == b"FROM".as_slice() {
        Mark::From
    } else if bytes == b"WHERE".as_slice() {
        Mark::Where
    } else if bytes == b"ORDER".as_slice() {
        Mark::Order
    } else if bytes == b"BY".as_slice() {
        Mark::By
    } else if bytes == b"LIMIT".as_slice() {
        Mark::Limit
    } else if bytes == b"DESC".as_slice() {
        Mark::Desc
    } else if bytes == b"ROW".as_slice() {
        Mark::Row
    } else if bytes == b"*".as_slice() {
        Mark::Star
    } else {
        Mark::Name
    }
}
