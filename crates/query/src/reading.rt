//! Reading a whole text.

ghost use Rattle.std.specs.Prelude.{◌≡◌, ◌↔◌, ◌≤◌, ◌<◌, ◌+◌, ◌^◌, Ok, Err, None, length, position, IfOk, IfErr, IfSome};
ghost use Rattle.std.specs.Prelude.{IsTrue, IsUtf8, MatchOption};
ghost use Rattle.std.specs.Str.{IsValidUpTo};
ghost use Rattle.query.specs.Columns.{items_of, keys_of};
ghost use Rattle.query.specs.Grammar.{columns_in, keys_in, keys_place};
ghost use Rattle.query.specs.Outcome.{HasCause, Answers, IsHead, IsStop, data_of, error_of, fault_at};
ghost use Rattle.query.specs.Queries.{QueryData, IsFormOf, HasGoodCondition, is_early, is_name, is_lost, lost_in};
ghost use Rattle.query.specs.Queries.{table_in, table_named, named_by, table_of, query_of, IsConditionOf, Say, Reads};
ghost use Rattle.query.specs.Queries.{spot_of};

use crate::condition::{is_condition, is_unknown, read_condition, stuck_at};
use crate::item::{Item, Key, items_of, keys_of};
use crate::mark::{Mark, mark_of};
use crate::parts::{
    Part, columns_in, condition_in, condition_place, has_condition, keys_in, keys_place, limit_in,
    place_of, table_place,
};
use crate::phase::stop_of;
use crate::pieces::{read_pieces, spot_after};
use crate::stop::{Spot, Stop, Wrong};
use crate::{
    Condition, MAX_QUERY_BYTES, Query, QueryError, QueryFault, QueryKind, no_fault, one_query,
};
use expression_text::Token;
use schema::Schema;
use std::alloc::{AllocError, Global};
use std::str;

/// The query that a text is, over the tables of a schema.
///
/// A fault is the first one: a text of more than [`MAX_QUERY_BYTES`] is TooLong at 1:1, then a byte that is not UTF-8,
/// then what may not stand where it stands, then the table, then names and kinds of columns from left to right. A
/// condition that names too many columns is at fault at its end, behind them. The time is linear in the text.
pub fn read_query(alloc: Global, schema: &Schema, text: &[u8]) -> Result<Query, QueryError>
    ensures found { IfOk result (λ query. Reads schema.now text.now (data_of query)) }
    ensures only { (query : QueryData) → Reads schema.now text.now query → Answers result query }
    ensures fault { IfErr result (λ error. HasCause schema.now text.now error) }
{
    one_query();
    no_fault();
    read_text(alloc, schema, text)
}

/// The same, without laws.
fn read_text(alloc: Global, schema: &Schema, text: &[u8]) -> Result<Query, QueryError>
    ensures found { IfOk result (λ query. Reads schema.now text.now (data_of query)) }
    ensures fault { IfErr result (λ error. HasCause schema.now text.now error) }
{
    if MAX_QUERY_BYTES < text.len() {
        return Err(QueryError::Fault(QueryFault {
            line: 1,
            column: 1,
            kind: QueryKind::TooLong,
        }));
    }
    match front_of_utf8(text) {
        Some(front) => Err(fault_at(spot_after(&text[..front]), QueryKind::NotUtf8)),
        None => read_utf8(alloc, schema, text),
    }
}

/// How many bytes the longest front of UTF-8 has, where that is not all of the text.
fn front_of_utf8(text: &[u8]) -> Option<usize>
    ensures { MatchOption result (IsUtf8 text.now) (λ front. IsValidUpTo text.now front) }
{
    match str::from_utf8(text) {
        Ok(_) => None,
        Err(error) => Some(error.valid_up_to()),
    }
}

/// The query that a text of UTF-8 is, which is not too long.
fn read_utf8(alloc: Global, schema: &Schema, text: &[u8]) -> Result<Query, QueryError>
    requires few { length text.now ≤ MAX_QUERY_BYTES }
    requires utf8 { IsUtf8 text.now }
    ensures found { IfOk result (λ query. Reads schema.now text.now (data_of query)) }
    ensures fault { IfErr result (λ error. HasCause schema.now text.now error) }
{
    let pieces = read_pieces(alloc, text)?;
    let words = pieces.tokens.as_slice();
    let spots = pieces.spots.as_slice();
    match read_words(alloc, schema, words) {
        Ok(query) => Ok(query),
        Err(stop) => Err(error_of(spots, stop)),
    }
}

/// What is wrong at the word where reading stopped.
fn error_of(spots: &[Spot], stop: Stop) -> QueryError
    ensures { result ≡ error_of spots.now stop }
{
    match stop {
        Stop::Fault(wrong) => fault_at(spot_of(spots, wrong.at), wrong.kind),
        Stop::Memory => QueryError::Memory,
    }
}

fn fault_at(spot: Spot, kind: QueryKind) -> QueryError
    ensures { result ≡ fault_at spot kind }
{
    QueryError::Fault(QueryFault {
        line: spot.line,
        column: spot.column,
        kind,
    })
}

/// The place of a word.
fn spot_of(spots: &[Spot], at: usize) -> Spot
    ensures { result ≡ spot_of spots.now at }
{
    match spots.get(at) {
        Some(spot) => *spot,
        None => Spot { line: 1, column: 1 },
    }
}

/// The query that words are.
fn read_words(alloc: Global, schema: &Schema, words: &[Token]) -> Result<Query, Stop>
    ensures found { IfOk result (λ query. Say schema.now.tables words.now (Ok (data_of query))) }
    ensures wrong { IfErr result (λ stop. IsStop stop (λ wrong. Say schema.now.tables words.now (Err wrong))) }
{
    match head(schema, words) {
        Some(wrong) => Err(Stop::Fault(wrong)),
        None => read_on(alloc, schema, words),
    }
}

/// The same, where nothing is wrong before the condition is asked.
fn read_on(alloc: Global, schema: &Schema, words: &[Token]) -> Result<Query, Stop>
    requires { IsHead schema.now.tables words.now None }
    ensures found { IfOk result (λ query. Say schema.now.tables words.now (Ok (data_of query))) }
    ensures wrong { IfErr result (λ stop. IsStop stop (λ wrong. Say schema.now.tables words.now (Err wrong))) }
{
    let condition = condition_of(alloc, schema, words)?;
    read_keys(alloc, schema, words, condition)
}

/// The same, where this is the condition.
fn read_keys(
    alloc: Global,
    schema: &Schema,
    words: &[Token],
    condition: Option<Condition>,
) -> Result<Query, Stop>
    requires head { IsHead schema.now.tables words.now None }
    requires condition { IsConditionOf schema.now.tables words.now (Ok condition) }
    ensures found { IfOk result (λ query. Say schema.now.tables words.now (Ok (data_of query))) }
    ensures wrong { IfErr result (λ stop. IsStop stop (λ wrong. Say schema.now.tables words.now (Err wrong))) }
{
    if let Some(wrong) = lost_key(schema, words) {
        return Err(Stop::Fault(wrong));
    }
    let query = query_of(alloc, schema, words, condition)?;
    Ok(query)
}

/// What is wrong with the keys.
fn lost_key(schema: &Schema, words: &[Token]) -> Option<Wrong>
    ensures { result ≡ lost_in schema.now.tables (table_of schema.now.tables words.now) (keys_place words.now)
        (keys_in words.now) }
{
    lost_in(
        schema,
        table_of(schema, words),
        keys_place(words),
        keys_in(words),
    )
}

/// The query that words are with this condition.
fn query_of(
    alloc: Global,
    schema: &Schema,
    words: &[Token],
    condition: Option<Condition>,
) -> Result<Query, AllocError>
    ensures { IfOk result (λ query. data_of query ≡ query_of schema.now.tables words.now condition) }
{
    let table = table_of(schema, words);
    let (columns, keys) = lists_of(alloc, schema, table, words)?;
    Ok(Query {
        table,
        columns,
        condition,
        keys,
        limit: limit_in(words),
    })
}

/// The columns and the keys that words ask for.
fn lists_of(
    alloc: Global,
    schema: &Schema,
    table: u8,
    words: &[Token],
) -> Result<(Vec<Item>, Vec<Key>), AllocError>
    ensures columns { IfOk result (λ lists. lists.0.items ≡ items_of schema.now.tables table (columns_in words.now)) }
    ensures keys { IfOk result (λ lists. lists.1.items ≡ keys_of schema.now.tables table (keys_in words.now)) }
{
    let columns = items_of(alloc, schema, table, columns_in(words))?;
    let keys = keys_of(alloc, schema, table, keys_in(words))?;
    Ok((columns, keys))
}

/// What is wrong before the condition is asked: the form, the table, or a column of the answer.
fn head(schema: &Schema, words: &[Token]) -> Option<Wrong>
    ensures { IsHead schema.now.tables words.now result }
{
    match form_of(words) {
        Some(wrong) => Some(wrong),
        None => named(schema, words, table_in(schema, words)),
    }
}

/// What is wrong with the form of a query.
fn form_of(words: &[Token]) -> Option<Wrong>
    ensures { IsFormOf words.now result }
{
    let stop = stop_of(words);
    if is_early(words, stop) {
        return stop;
    }
    if has_good_condition(words) {
        return stop;
    }
    Some(stuck_at(condition_place(words), condition_in(words)))
}

/// Whether words stop where no condition has begun yet.
fn is_early(words: &[Token], stop: Option<Wrong>) -> bool
    ensures { result ≡ is_early words.now stop }
{
    match stop {
        None => false,
        Some(wrong) => wrong.at <= place_of(Part::Where, words),
    }
}

/// Whether the condition, if there is one, is one.
fn has_good_condition(words: &[Token]) -> bool
    ensures { IsTrue result ↔ HasGoodCondition words.now }
{
    if !has_condition(words) {
        return true;
    }
    is_condition(condition_in(words))
}

/// What is wrong with the table of this number, or with a column of the answer.
fn named(schema: &Schema, words: &[Token], table: Option<u8>) -> Option<Wrong>
    ensures { result ≡ named_by schema.now.tables words.now table }
{
    match table {
        None => Some(Wrong {
            kind: QueryKind::UnknownTable,
            at: table_place(words),
        }),
        Some(table) => lost_in(schema, table, 1, columns_in(words)),
    }
}

/// The number of the table that a query names.
fn table_in(schema: &Schema, words: &[Token]) -> Option<u8>
    ensures { result ≡ table_in schema.now.tables words.now }
{
    match words.get(table_place(words)) {
        Some(Token::Column(name)) => table_named(schema, name.as_slice()),
        _ => None,
    }
}

/// The number of the table with this name.
fn table_named(schema: &Schema, name: &[u8]) -> Option<u8>
    ensures { result ≡ table_named schema.now.tables name.now }
{
    match str::from_utf8(name) {
        Ok(name) => schema.table_named(name),
        Err(_) => None,
    }
}

/// The same, and 0 where there is none.
fn table_of(schema: &Schema, words: &[Token]) -> u8
    ensures { result ≡ table_of schema.now.tables words.now }
{
    table_in(schema, words).unwrap_or(0)
}

/// Whether a word names a column that is not there.
fn is_lost(schema: &Schema, table: u8, word: &Token) -> bool
    ensures { result ≡ is_lost schema.now.tables table word.now }
{
    is_name(mark_of(word)) && is_unknown(schema, table, word)
}

fn is_name(mark: Mark) -> bool
    ensures { result ≡ is_name mark }
{
    matches!(mark, Mark::Name)
}

/// The number of the first of these words that names a column that is not there.
fn first_lost(schema: &Schema, table: u8, words: &[Token]) -> Option<usize>
    ensures is { result ≡ position (is_lost schema.now.tables table) words.now }
    ensures within { IfSome result (λ at. at < length words.now) }
{
    words.iter().position(|word| is_lost(schema, table, word))
}

/// The first of these words, which number from here, that names a column that is not there.
fn lost_in(schema: &Schema, table: u8, at: usize, words: &[Token]) -> Option<Wrong>
    requires { at ≤ 2 ^ 63 + 1 }
    ensures { result ≡ lost_in schema.now.tables table at words.now }
{
    match first_lost(schema, table, words) {
        Some(i) => Some(Wrong {
            kind: QueryKind::UnknownColumn,
            at: at + i,
        }),
        None => None,
    }
}

/// The condition of a query, where it has one.
fn condition_of(alloc: Global, schema: &Schema, words: &[Token]) -> Result<Option<Condition>, Stop>
    requires { HasGoodCondition words.now }
    ensures found { IfOk result (λ found. IsConditionOf schema.now.tables words.now (Ok found)) }
    ensures wrong { IfErr result (λ stop. IsStop stop (λ wrong. IsConditionOf schema.now.tables words.now (Err wrong))) }
{
    if !has_condition(words) {
        return Ok(None);
    }
    let table = table_of(schema, words);
    let condition = read_condition(
        alloc,
        schema,
        table,
        condition_place(words),
        condition_in(words),
    )?;
    Ok(Some(condition))
}
