//! The parts of a query.

ghost use Rattle.std.specs.Prelude.{◌≡◌, ◌≤◌, ◌<◌, ◌+◌, ◌^◌, drop, length, position, IfSome};
ghost use Rattle.query.specs.Grammar.{begins, mark_of, place_of, columns_in, condition_in, condition_place};
ghost use Rattle.query.specs.Grammar.{has_condition, keys_in, keys_place, table_place, limit_first, limit_in};

use crate::mark::{Mark, limit_of, mark_of};
use expression_text::Token;

/// A part of a query.
#[derive(Clone, Copy)]
pub(crate) enum Part {
    /// `FROM` and the table.
    From,
    /// `WHERE` and the condition.
    Where,
    /// `ORDER BY` and the keys.
    Order,
    /// `LIMIT` and the number.
    Limit,
    /// What follows a condition.
    End,
}

/// Whether a word begins this part.
fn begins(part: Part, mark: Mark) -> bool
    ensures { result ≡ begins part mark }
{
    matches!(
        (part, mark),
        (Part::From, Mark::From)
            | (Part::Where, Mark::Where)
            | (Part::Order, Mark::Order)
            | (Part::Limit, Mark::Limit)
            | (Part::End, Mark::Order | Mark::Limit)
    )
}

/// The number of the first word that begins this part.
fn first_of(part: Part, words: &[Token]) -> Option<usize>
    ensures is { result ≡ position (λ word. begins part (mark_of word)) words.now }
    ensures within { IfSome result (λ at. at < length words.now) }
{
    words.iter().position(|word| begins(part, mark_of(word)))
}

/// The number of the first word that begins this part, or how many words there are.
pub(crate) fn place_of(part: Part, words: &[Token]) -> usize
    ensures is { result ≡ place_of part words.now }
    ensures within { result ≤ length words.now }
{
    match first_of(part, words) {
        Some(at) => at,
        None => words.len(),
    }
}

/// The words from this one on.
fn from_place(words: &[Token], at: usize) -> &[Token]
    ensures { result.now ≡ drop at words.now }
{
    if at <= words.len() { &words[at..] } else { &[] }
}

/// The columns behind `SELECT`.
pub(crate) fn columns_in(words: &[Token]) -> &[Token]
    ensures { result.now ≡ columns_in words.now }
{
    let rest = from_place(words, 1);
    &rest[..place_of(Part::From, rest)]
}

/// Where the name of the table stands.
pub(crate) fn table_place(words: &[Token]) -> usize
    ensures { result ≡ table_place words.now }
{
    place_of(Part::From, words) + 1
}

/// Where the condition begins.
pub(crate) fn condition_place(words: &[Token]) -> usize
    ensures is { result ≡ condition_place words.now }
    ensures within { result ≤ 2 ^ 63 }
{
    place_of(Part::Where, words) + 1
}

/// The condition.
pub(crate) fn condition_in(words: &[Token]) -> &[Token]
    ensures { result.now ≡ condition_in words.now }
{
    let rest = from_place(words, condition_place(words));
    &rest[..place_of(Part::End, rest)]
}

/// Whether there is a condition.
pub(crate) fn has_condition(words: &[Token]) -> bool
    ensures { result ≡ has_condition words.now }
{
    place_of(Part::Where, words) < words.len()
}

/// Where the keys begin.
pub(crate) fn keys_place(words: &[Token]) -> usize
    ensures is { result ≡ keys_place words.now }
    ensures within { result ≤ 2 ^ 63 + 1 }
{
    place_of(Part::Order, words) + 2
}

/// The keys.
pub(crate) fn keys_in(words: &[Token]) -> &[Token]
    ensures { result.now ≡ keys_in words.now }
{
    let rest = from_place(words, keys_place(words));
    &rest[..place_of(Part::Limit, rest)]
}

/// The number behind `LIMIT`.
pub(crate) fn limit_in(words: &[Token]) -> Option<u32>
    ensures { result ≡ limit_in words.now }
{
    limit_first(from_place(words, place_of(Part::Limit, words) + 1))
}

/// The number that stands here first.
fn limit_first(words: &[Token]) -> Option<u32>
    ensures { result ≡ limit_first words.now }
{
    match words {
        [Token::Integer(n), ..] => limit_of(*n),
        _ => None,
    }
}
