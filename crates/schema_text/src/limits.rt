ghost use Rattle.std.specs.Prelude.{◌≡◌, ◌==◌, ◌↔◌, IsTrue, All};
ghost use Rattle.std.specs.List.{list_any};
ghost use Rattle.schema_text.specs.Faults.{IsWithinLimits, IsShort, MayHaveMore, AreFewAndShort, HasShortName};
ghost use Rattle.schema_text.specs.Faults.{HasShortValue, is_unique, is_overlong, may_be_unique};

use crate::draft::Draft;
use crate::form::{Form, SampleValue};
use crate::lookups::number_named;
use expression_text::{Token, are_short_texts};
use schema::{Column, MAX_CHECKS, MAX_COLUMNS, MAX_MATCHES, MAX_TABLES, TableDef, UniqueRule};
use text_words::{Literal, has_name_letters};
use update_model::MAX_TEXT;

/// The most bytes of a text.
pub const MAX_SCHEMA_BYTES: usize = 65536;

/// The most authors that a schema lists.
pub const MAX_AUTHORS: usize = 256;

/// The most words of an expression, with `(`, `)` and `,` counted.
pub const MAX_TOKENS: usize = 256;

/// The most rows that an `ATMOST` may name.
pub const MAX_ROWS: i64 = 64;

/// Whether nothing in a line is too many, too long or there twice.
pub(crate) fn is_within_limits(draft: &Draft, form: &Form) -> bool
    ensures { IsTrue result ↔ IsWithinLimits draft.now form.now }
{
    let table = &draft.table;
    match form {
        Form::Database { name } => is_short(name.as_slice()),
        Form::Author { key } => {
            let authors = draft.authors.as_slice();
            authors.len() < MAX_AUTHORS && !authors.contains(key)
        }
        Form::Table { name, .. } => {
            draft.tables.as_slice().len() < MAX_TABLES && is_short(name.as_slice())
        }
        Form::Column { name, .. } => may_have_more(table.columns.as_slice(), name.as_slice()),
        Form::Ref { name, .. } => may_have_more(table.columns.as_slice(), name.as_slice()),
        Form::Check { tokens } => {
            table.checks.as_slice().len() < MAX_CHECKS && are_few_and_short(tokens.as_slice())
        }
        Form::Match {
            column,
            reference,
            target_column,
            ..
        } => {
            table.matches.as_slice().len() < MAX_MATCHES
                && is_short(column.as_slice())
                && is_short(reference.as_slice())
                && is_short(target_column.as_slice())
        }
        Form::Unique { column, keeps } => {
            is_short(column.as_slice())
                && !is_unique(
                    table,
                    number_named(table.columns.as_slice(), column.as_slice()),
                )
                && may_be_unique(table, *keeps)
        }
        Form::AtMost { count } => {
            1 <= *count && *count <= MAX_ROWS && table.at_most == 0 && table.kept.is_none()
        }
        Form::Sample { values } => are_short_values(values.as_slice()),
    }
}

/// Whether there is room for a column with this name.
fn may_have_more(columns: &[Column], name: &[u8]) -> bool
    ensures { IsTrue result ↔ MayHaveMore columns.now name.now }
{
    columns.len() < MAX_COLUMNS && is_short(name)
}

/// Whether bytes are no name that is too long.
fn is_short(name: &[u8]) -> bool
    ensures { IsTrue result ↔ IsShort name.now }
{
    name.len() <= 32 || !has_name_letters(name)
}

/// Whether an expression has not too many tokens, and no text or name in it is too long.
fn are_few_and_short(tokens: &[Token]) -> bool
    ensures { IsTrue result ↔ AreFewAndShort tokens.now }
{
    tokens.len() <= MAX_TOKENS && are_short_texts(tokens) && are_short_names(tokens)
}

fn are_short_names(tokens: &[Token]) -> bool
    ensures { IsTrue result ↔ All HasShortName tokens.now }
{
    tokens.iter().all(|token| has_short_name(token))
}

fn has_short_name(token: &Token) -> bool
    ensures { IsTrue result ↔ HasShortName token.now }
{
    match token {
        Token::Column(name) => is_short(name.as_slice()),
        _ => true,
    }
}

fn are_short_values(values: &[SampleValue]) -> bool
    ensures { IsTrue result ↔ All HasShortValue values.now }
{
    values.iter().all(|value| is_short_value(value))
}

fn is_short_value(value: &SampleValue) -> bool
    ensures { IsTrue result ↔ HasShortValue value.now }
{
    match value {
        SampleValue::Literal(Literal::Text(text)) => text.as_slice().len() <= usize::from(MAX_TEXT),
        _ => true,
    }
}

/// Whether a table may have one more `UNIQUE`: one with `KEEP LEAST` where it has neither a `UNIQUE` nor an `ATMOST`,
/// another one where it has none with `KEEP LEAST`.
fn may_be_unique(table: &TableDef, keeps: bool) -> bool
    ensures { result ≡ may_be_unique table.now keeps }
{
    if keeps {
        table.uniques.as_slice().is_empty() && table.at_most == 0
    } else {
        table.kept.is_none()
    }
}

/// Whether a `UNIQUE` of the column with this number stands already.
fn is_unique(table: &TableDef, column: Option<usize>) -> bool
    ensures { result ≡ is_unique table.now column }
{
    match column {
        None => false,
        Some(column) => has_unique(table.uniques.as_slice(), column),
    }
}

fn has_unique(rules: &[UniqueRule], column: usize) -> bool
    ensures { result ≡ list_any (λ rule. rule.column == column) rules.now }
{
    rules.iter().any(|rule| usize::from(rule.column) == column)
}
