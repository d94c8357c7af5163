//! The forms of lines.

ghost use Rattle.std.specs.Prelude.{◌≡◌, ◌↔◌, ℕ, All, IsTrue, IfOk, IsUtf8, option_map};
ghost use Rattle.schema_text.specs.Forms.{HasUtf8, HasUtf8Text, IsWhole, IsForm, author_form, author_in, keeps_in};
ghost use Rattle.schema_text.specs.Forms.{kind_in, at_most_form, after_check, check_form, column_form, database_form};
ghost use Rattle.schema_text.specs.Forms.{form_at, form_with, match_form, plain_form, ref_form, sample_form};
ghost use Rattle.schema_text.specs.Forms.{table_form, unique_form};

use crate::form::{Form, PlainKind, SampleValue};
use crate::keyword::Keyword;
use crate::word_lists::{SampleList, TokenList};
use crate::words::{
    action_in, bounds_in, copied, is_word, key_in, keyword_in, null_at_end, number_in, path_in,
    rights_in, sign_in, spelled, values_of,
};
use expression_text::{Token, is_expression, tokens_of};
use std::alloc::{AllocError, Global};
use std::str;
use text_words::{
    Literal, Style, Word, bytes_of_hex, expression_words, first_word, plain_words, skip_blanks,
};

/// The form of a line of UTF-8.
pub(crate) fn form_of(alloc: Global, line: &[u8]) -> Result<Option<Form>, AllocError>
    ensures { IfOk result (λ found. IsForm line.now found) }
{
    match form_at(alloc, skip_blanks(line))? {
        Some(form) if is_whole(&form) => Ok(Some(form)),
        _ => Ok(None),
    }
}

/// Whether bytes are UTF-8.
pub(crate) fn is_utf8(bytes: &[u8]) -> bool
    ensures { IsTrue result ↔ IsUtf8 bytes.now }
{
    str::from_utf8(bytes).is_ok()
}

/// Whether tokens are an expression, and texts are UTF-8.
fn is_whole(form: &Form) -> bool
    ensures { IsTrue result ↔ IsWhole form.now }
{
    match form {
        Form::Check { tokens } => {
            is_expression(tokens.as_slice()) && are_utf8_tokens(tokens.as_slice())
        }
        Form::Sample { values } => are_utf8_values(values.as_slice()),
        _ => true,
    }
}

fn are_utf8_tokens(tokens: &[Token]) -> bool
    ensures { IsTrue result ↔ All HasUtf8Text tokens.now }
{
    tokens.iter().all(|token| has_utf8_text(token))
}

fn has_utf8_text(token: &Token) -> bool
    ensures { IsTrue result ↔ HasUtf8Text token.now }
{
    match token {
        Token::Text(bytes) => is_utf8(bytes.as_slice()),
        _ => true,
    }
}

fn are_utf8_values(values: &[SampleValue]) -> bool
    ensures { IsTrue result ↔ All HasUtf8 values.now }
{
    values.iter().all(|value| has_utf8(value))
}

fn has_utf8(value: &SampleValue) -> bool
    ensures { IsTrue result ↔ HasUtf8 value.now }
{
    match value {
        SampleValue::Literal(Literal::Text(bytes)) => is_utf8(bytes.as_slice()),
        _ => true,
    }
}

/// The form of a line that begins with a word.
#[tactic(auto, unfolding(crate::specs::Forms::form_at))]
fn form_at(alloc: Global, start: &[u8]) -> Result<Option<Form>, AllocError>
    ensures { IfOk result (λ found. found ≡ form_at start.now) }
{
    match after_check(alloc, start)? {
        Some(rest) => check_form(alloc, rest),
        None => plain_form(alloc, start),
    }
}

/// What stands after the word CHECK, where a line begins with it.
#[tactic(auto, unfolding(crate::specs::Forms::after_check))]
fn after_check(alloc: Global, start: &[u8]) -> Result<Option<&[u8]>, AllocError>
    ensures { IfOk result (λ found. option_map (λ rest. rest.now) found ≡ after_check start.now) }
{
    match first_word(alloc, Style::Punctuated, start)? {
        Some((word, rest)) => Ok(is_word(b"CHECK", &word).then_some(rest)),
        None => Ok(None),
    }
}

/// The tokens of an expression.
#[tactic(auto, unfolding(crate::specs::Forms::check_form))]
fn check_form(alloc: Global, rest: &[u8]) -> Result<Option<Form>, AllocError>
    ensures { IfOk result (λ found. found ≡ check_form rest.now) }
{
    match expression_words(alloc, rest)? {
        Some(words) => Ok(Some(Form::Check {
            tokens: TokenList::from_vec(tokens_of(alloc, words.as_slice())?),
        })),
        None => Ok(None),
    }
}

/// The form of a line that is no CHECK.
#[tactic(auto, unfolding(crate::specs::Forms::plain_form))]
fn plain_form(alloc: Global, start: &[u8]) -> Result<Option<Form>, AllocError>
    ensures { IfOk result (λ found. found ≡ plain_form start.now) }
{
    let Some((word, rest)) = first_word(alloc, Style::Spaced, start)? else {
        return Ok(None);
    };
    let Some(keyword) = keyword_in(&word) else {
        return Ok(None);
    };
    let Some(words) = plain_words(alloc, rest)? else {
        return Ok(None);
    };
    form_with(alloc, keyword, words.as_slice())
}

/// The form that a keyword and the words after it are.
fn form_with(alloc: Global, keyword: Keyword, words: &[Word]) -> Result<Option<Form>, AllocError>
    ensures { IfOk result (λ found. found ≡ form_with keyword words.now) }
{
    match keyword {
        Keyword::Database => database_form(alloc, words),
        Keyword::Author => author_form(alloc, words),
        Keyword::Table => table_form(alloc, words),
        Keyword::Column => column_form(alloc, words),
        Keyword::Ref => ref_form(alloc, words),
        Keyword::Match => match_form(alloc, words),
        Keyword::Unique => unique_form(alloc, words),
        Keyword::AtMost => Ok(at_most_form(words)),
        Keyword::Sample => sample_form(alloc, words),
    }
}

fn database_form(alloc: Global, words: &[Word]) -> Result<Option<Form>, AllocError>
    ensures { IfOk result (λ found. found ≡ database_form words.now) }
{
    match words {
        [name] => Ok(Some(Form::Database {
            name: spelled(alloc, name)?,
        })),
        _ => Ok(None),
    }
}

fn author_form(alloc: Global, words: &[Word]) -> Result<Option<Form>, AllocError>
    ensures { IfOk result (λ found. found ≡ author_form words.now) }
{
    match words {
        [key] => {
            let digits = spelled(alloc, key)?;
            Ok(author_in(digits.as_slice()))
        }
        _ => Ok(None),
    }
}

/// The author whose key these digits write.
fn author_in(digits: &[u8]) -> Option<Form>
    ensures { result ≡ author_in digits.now }
{
    let bytes = bytes_of_hex(digits)?;
    Some(Form::Author {
        key: key_in(&bytes),
    })
}

fn table_form(alloc: Global, words: &[Word]) -> Result<Option<Form>, AllocError>
    ensures { IfOk result (λ found. found ≡ table_form words.now) }
{
    let [name, rights @ ..] = words else {
        return Ok(None);
    };
    let Some((deletable, owned)) = rights_in(rights) else {
        return Ok(None);
    };
    Ok(Some(Form::Table {
        name: spelled(alloc, name)?,
        deletable,
        owned,
    }))
}

fn column_form(alloc: Global, words: &[Word]) -> Result<Option<Form>, AllocError>
    ensures { IfOk result (λ found. found ≡ column_form words.now) }
{
    let [name, kind, end @ ..] = words else {
        return Ok(None);
    };
    let Some((kind, null)) = kind_in(kind, end) else {
        return Ok(None);
    };
    Ok(Some(Form::Column {
        name: spelled(alloc, name)?,
        kind,
        null,
    }))
}

/// The kind of a column, and whether it has NULL.
fn kind_in(kind: &Word, end: &[Word]) -> Option<(PlainKind, bool)>
    ensures { result ≡ kind_in kind.now end.now }
{
    if is_word(b"INT", kind) {
        let (lo, hi, null) = bounds_in(end)?;
        Some((PlainKind::Int { lo, hi }, null))
    } else if is_word(b"TEXT", kind) {
        let (lo, hi, null) = bounds_in(end)?;
        Some((PlainKind::Text { lo, hi }, null))
    } else if is_word(b"FLAG", kind) {
        let null = null_at_end(end)?;
        Some((PlainKind::Flag, null))
    } else {
        None
    }
}

fn ref_form(alloc: Global, words: &[Word]) -> Result<Option<Form>, AllocError>
    ensures { IfOk result (λ found. found ≡ ref_form words.now) }
{
    let [name, table, action, end @ ..] = words else {
        return Ok(None);
    };
    let Some(action) = action_in(action) else {
        return Ok(None);
    };
    let Some(null) = null_at_end(end) else {
        return Ok(None);
    };
    Ok(Some(Form::Ref {
        name: spelled(alloc, name)?,
        table: spelled(alloc, table)?,
        action,
        null,
    }))
}

fn match_form(alloc: Global, words: &[Word]) -> Result<Option<Form>, AllocError>
    ensures { IfOk result (λ found. found ≡ match_form words.now) }
{
    let [column, sign, path] = words else {
        return Ok(None);
    };
    let Some(cmp) = sign_in(sign) else {
        return Ok(None);
    };
    let path = spelled(alloc, path)?;
    let Some((reference, target_column)) = path_in(path.as_slice()) else {
        return Ok(None);
    };
    Ok(Some(Form::Match {
        column: spelled(alloc, column)?,
        cmp,
        reference: copied(alloc, reference)?,
        target_column: copied(alloc, target_column)?,
    }))
}

fn unique_form(alloc: Global, words: &[Word]) -> Result<Option<Form>, AllocError>
    ensures { IfOk result (λ found. found ≡ unique_form words.now) }
{
    let [column, end @ ..] = words else {
        return Ok(None);
    };
    let Some(keeps) = keeps_in(end) else {
        return Ok(None);
    };
    Ok(Some(Form::Unique {
        column: spelled(alloc, column)?,
        keeps,
    }))
}

/// Whether a `UNIQUE` keeps the least row, by what stands at its end: nothing, or `KEEP LEAST`.
fn keeps_in(words: &[Word]) -> Option<bool>
    ensures { result ≡ keeps_in words.now }
{
    match words {
        [] => Some(false),
        [first, second] => {
            (is_word(b"KEEP", first) && is_word(b"LEAST", second)).then_some(true)
        }
        _ => None,
    }
}

fn at_most_form(words: &[Word]) -> Option<Form>
    ensures { result ≡ at_most_form words.now }
{
    match words {
        [count] => {
            let count = number_in(count)?;
            Some(Form::AtMost { count })
        }
        _ => None,
    }
}

fn sample_form(alloc: Global, words: &[Word]) -> Result<Option<Form>, AllocError>
    ensures { IfOk result (λ found. found ≡ sample_form words.now) }
{
    match values_of(alloc, words)? {
        Some(values) => Ok(Some(Form::Sample {
            values: SampleList::from_vec(values),
        })),
        None => Ok(None),
    }
}
