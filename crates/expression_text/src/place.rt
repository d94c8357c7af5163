ghost use Rattle.std.specs.Prelude.{◌≡◌, ◌<◌, ◌≤◌, ◌+◌};
ghost use Rattle.expression_text.specs.Places.{next_place, next_begun, next_column, next_after_column, next_after_term};
ghost use Rattle.expression_text.specs.Places.{next_after_sign, next_after_is, next_after_native, next_after_number};
ghost use Rattle.expression_text.specs.Places.{next_after_argument, next_finished, after, is_end};

use crate::Token;
use crate::numbers::check_number;

/// What was read last of an operand, and so what may come next.
#[derive(Clone, Copy)]
pub(crate) enum Place {
    /// Nothing yet: an operand is to come.
    Begun,
    /// `LEN` on the left side.
    AfterLen,
    /// A column, which is the left side of a comparison or is asked for null.
    AfterColumn,
    /// The left side of a comparison.
    AfterTerm,
    /// A sign.
    AfterSign,
    /// `LEN` on the right side.
    AfterSignLen,
    /// A column and `IS`.
    AfterIs,
    /// `NATIVE`.
    AfterNative,
    /// `NATIVE` and a number.
    AfterNumber,
    /// The parenthesis of `NATIVE`, or a comma in it.
    AfterComma,
    /// A column in the parentheses of `NATIVE`.
    AfterArgument,
    /// A whole operand.
    Finished,
    /// What no expression begins with.
    Refused,
}

impl Place {
    /// The place after a token that is no parenthesis about an expression.
    fn next(self, token: &Token) -> Place
        ensures { result ≡ next_place self token.now }
    {
        match self {
            Place::Begun => begun(token),
            Place::AfterLen => column(Place::AfterTerm, token),
            Place::AfterColumn => after_column(token),
            Place::AfterTerm => after_term(token),
            Place::AfterSign => after_sign(token),
            Place::AfterSignLen => column(Place::Finished, token),
            Place::AfterIs => after_is(token),
            Place::AfterNative => after_native(token),
            Place::AfterNumber => after_number(token),
            Place::AfterComma => column(Place::AfterArgument, token),
            Place::AfterArgument => after_argument(token),
            Place::Finished => finished(token),
            Place::Refused => Place::Refused,
        }
    }
}

fn begun(token: &Token) -> Place
    ensures { result ≡ next_begun token.now }
{
    match token {
        Token::Column(_) => Place::AfterColumn,
        Token::Integer(_) | Token::Text(_) | Token::Flag(_) => Place::AfterTerm,
        Token::Len => Place::AfterLen,
        Token::Native => Place::AfterNative,
        Token::Not => Place::Begun,
        _ => Place::Refused,
    }
}

/// This place after a column.
fn column(place: Place, token: &Token) -> Place
    ensures { result ≡ next_column place token.now }
{
    match token {
        Token::Column(_) => place,
        _ => Place::Refused,
    }
}

fn after_column(token: &Token) -> Place
    ensures { result ≡ next_after_column token.now }
{
    match token {
        Token::Sign(_) => Place::AfterSign,
        Token::Is => Place::AfterIs,
        _ => Place::Refused,
    }
}

fn after_term(token: &Token) -> Place
    ensures { result ≡ next_after_term token.now }
{
    match token {
        Token::Sign(_) => Place::AfterSign,
        _ => Place::Refused,
    }
}

fn after_sign(token: &Token) -> Place
    ensures { result ≡ next_after_sign token.now }
{
    match token {
        Token::Column(_) | Token::Integer(_) | Token::Text(_) | Token::Flag(_) => Place::Finished,
        Token::Len => Place::AfterSignLen,
        _ => Place::Refused,
    }
}

fn after_is(token: &Token) -> Place
    ensures { result ≡ next_after_is token.now }
{
    match token {
        Token::Null => Place::Finished,
        _ => Place::Refused,
    }
}

fn after_native(token: &Token) -> Place
    ensures { result ≡ next_after_native token.now }
{
    match token {
        Token::Integer(n) if check_number(*n).is_some() => Place::AfterNumber,
        _ => Place::Refused,
    }
}

fn after_number(token: &Token) -> Place
    ensures { result ≡ next_after_number token.now }
{
    match token {
        Token::Column(_) => Place::Finished,
        Token::Open => Place::AfterComma,
        _ => Place::Refused,
    }
}

fn after_argument(token: &Token) -> Place
    ensures { result ≡ next_after_argument token.now }
{
    match token {
        Token::Comma => Place::AfterComma,
        Token::Close => Place::Finished,
        _ => Place::Refused,
    }
}

fn finished(token: &Token) -> Place
    ensures { result ≡ next_finished token.now }
{
    match token {
        Token::And | Token::Or => Place::Begun,
        _ => Place::Refused,
    }
}

/// Where the reading of an expression stands.
#[derive(Clone, Copy)]
pub(crate) struct Position {
    pub(crate) place: Place,
    /// How many parentheses are open.
    pub(crate) depth: usize,
}

impl Position {
    /// Before the first token.
    pub(crate) fn start() -> Position
        ensures { result ≡ record { place = Place.Begun; depth = 0 } }
    {
        Position {
            place: Place::Begun,
            depth: 0,
        }
    }

    /// After a token more.
    pub(crate) fn after(self, token: &Token) -> Position
        requires { self.depth < usize.MAX }
        ensures next { result ≡ after self.place self.depth token.now }
        ensures deeper { result.depth ≤ self.depth + 1 }
    {
        match (self.place, token) {
            (Place::Begun, Token::Open) => Position {
                place: Place::Begun,
                depth: self.depth + 1,
            },
            (Place::Finished, Token::Close) if self.depth == 0 => Position {
                place: Place::Refused,
                depth: 0,
            },
            (Place::Finished, Token::Close) => Position {
                place: Place::Finished,
                depth: self.depth - 1,
            },
            (place, token) => Position {
                place: place.next(token),
                depth: self.depth,
            },
        }
    }

    /// Whether a whole expression was read.
    pub(crate) fn is_end(self) -> bool
        ensures { result ≡ is_end self.place self.depth }
    {
        matches!(self.place, Place::Finished) && self.depth == 0
    }
}
