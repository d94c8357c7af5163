ghost use Rattle.std.specs.Prelude.{◌≡◌, ◌↔◌, ◌≤◌, length, IsTrue, All, bytes_eq};
ghost use Rattle.std.specs.List.{position};
ghost use Rattle.expression_text.specs.Columns.{IsKnown, HasShortText, HasRowText};

use crate::Token;
use update_model::{MAX_TEXT, TextValue, check_value_text};

/// Whether each word that stands for a column is one of these names.
pub fn are_known(tokens: &[Token], names: &[TextValue]) -> bool
    ensures { IsTrue result ↔ All (IsKnown names.now) tokens.now }
{
    for token in tokens {
        if !is_known(token, names) {
            return false;
        }
    }
    true
}

fn is_known(token: &Token, names: &[TextValue]) -> bool
    ensures { IsTrue result ↔ IsKnown names.now token.now }
{
    match token {
        Token::Column(name) => column_number(names, name.as_slice()).is_some(),
        _ => true,
    }
}

/// The number of the column with this name, the first one's where several have it.
pub(crate) fn column_number(names: &[TextValue], name: &[u8]) -> Option<usize>
    ensures { result ≡ position (bytes_eq name.now) names.now }
{
    names.iter().position(|other| name == other.as_slice())
}

/// Whether no text among the tokens is longer than [`MAX_TEXT`] bytes.
pub fn are_short_texts(tokens: &[Token]) -> bool
    ensures { IsTrue result ↔ All HasShortText tokens.now }
{
    for token in tokens {
        if !has_short_text(token) {
            return false;
        }
    }
    true
}

fn has_short_text(token: &Token) -> bool
    ensures { IsTrue result ↔ HasShortText token.now }
{
    match token {
        Token::Text(bytes) => bytes.as_slice().len() <= usize::from(MAX_TEXT),
        _ => true,
    }
}

/// Whether each text among the tokens may stand in a row: at most [`MAX_TEXT`] bytes of UTF-8.
pub fn are_row_texts(tokens: &[Token]) -> bool
    ensures { IsTrue result ↔ All HasRowText tokens.now }
{
    for token in tokens {
        if !has_row_text(token) {
            return false;
        }
    }
    true
}

fn has_row_text(token: &Token) -> bool
    ensures { IsTrue result ↔ HasRowText token.now }
{
    match token {
        Token::Text(bytes) => check_value_text(bytes.as_slice()),
        _ => true,
    }
}
