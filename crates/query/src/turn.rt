//! Where the words of a condition are at fault.

ghost use Rattle.std.specs.Prelude.{◌≡◌, ◌≤◌, ◌+◌, ◌<◌, IfSome};
ghost use Rattle.query.specs.Conditions.{after_operand, column_then, after_named, after_sided, after_right, after_is};
ghost use Rattle.query.specs.Conditions.{after_native, after_number, after_argument, after_joint, next_turn};
ghost use Rattle.query.specs.Conditions.{next_stand, closed};

use expression_text::Token;

/// What is to come in a condition.
#[derive(Clone, Copy)]
pub(crate) enum Expected {
    /// An operand.
    Operand,
    /// The column of `LEN` on the left side.
    Length,
    /// A sign or `IS` behind a column.
    Named,
    /// A sign behind another left side.
    Sided,
    /// The right side.
    Right,
    /// The column of `LEN` on the right side.
    RightLength,
    /// `NULL` behind `IS`.
    Null,
    /// The number of `NATIVE`.
    Number,
    /// A column of `NATIVE`, or a parenthesis.
    Argument,
    /// A column in that parenthesis.
    Arguments,
    /// A comma or the end of that parenthesis.
    More,
    /// What joins operands, or ends a parenthesis.
    Joint,
}

/// Where a condition stands.
#[derive(Clone, Copy)]
pub(crate) struct Stand {
    pub(crate) turn: Expected,
    /// How many parentheses are open.
    pub(crate) depth: usize,
}

impl Stand {
    /// Before the first word.
    pub(crate) fn begun() -> Stand
        ensures { result ≡ record { turn = Expected.Operand; depth = 0 } }
    {
        Stand {
            turn: Expected::Operand,
            depth: 0,
        }
    }

    /// Where it stands after a word more, if an expression may have it.
    pub(crate) fn after(self, word: &Token) -> Option<Stand>
        requires { self.depth < usize.MAX }
        ensures next { result ≡ next_stand self word.now }
        ensures deeper { IfSome result (λ next. next.depth ≤ self.depth + 1) }
    {
        match (self.turn, word) {
            (Expected::Operand, Token::Open) => Some(Stand {
                turn: Expected::Operand,
                depth: self.depth + 1,
            }),
            (Expected::Joint, Token::Close) => closed(self.depth),
            (turn, word) => {
                let next = next_turn(turn, word)?;
                Some(Stand {
                    turn: next,
                    depth: self.depth,
                })
            }
        }
    }
}

/// One parenthesis less.
fn closed(depth: usize) -> Option<Stand>
    ensures { result ≡ closed depth }
{
    if depth == 0 {
        return None;
    }
    Some(Stand {
        turn: Expected::Joint,
        depth: depth - 1,
    })
}

/// What comes behind a word that is no parenthesis about an expression.
fn next_turn(turn: Expected, word: &Token) -> Option<Expected>
    ensures { result ≡ next_turn turn word.now }
{
    match turn {
        Expected::Operand => after_operand(word),
        Expected::Length => column_then(Expected::Sided, word),
        Expected::Named => after_named(word),
        Expected::Sided => after_sided(word),
        Expected::Right => after_right(word),
        Expected::RightLength => column_then(Expected::Joint, word),
        Expected::Null => after_is(word),
        Expected::Number => after_native(word),
        Expected::Argument => after_number(word),
        Expected::Arguments => column_then(Expected::More, word),
        Expected::More => after_argument(word),
        Expected::Joint => after_joint(word),
    }
}

fn after_operand(word: &Token) -> Option<Expected>
    ensures { result ≡ after_operand word.now }
{
    match word {
        Token::Column(_) => Some(Expected::Named),
        Token::Integer(_) | Token::Text(_) | Token::Flag(_) => Some(Expected::Sided),
        Token::Len => Some(Expected::Length),
        Token::Native => Some(Expected::Number),
        Token::Not => Some(Expected::Operand),
        _ => None,
    }
}

/// This behind a column.
fn column_then(next: Expected, word: &Token) -> Option<Expected>
    ensures { result ≡ column_then next word.now }
{
    match word {
        Token::Column(_) => Some(next),
        _ => None,
    }
}

fn after_named(word: &Token) -> Option<Expected>
    ensures { result ≡ after_named word.now }
{
    match word {
        Token::Sign(_) => Some(Expected::Right),
        Token::Is => Some(Expected::Null),
        _ => None,
    }
}

fn after_sided(word: &Token) -> Option<Expected>
    ensures { result ≡ after_sided word.now }
{
    match word {
        Token::Sign(_) => Some(Expected::Right),
        _ => None,
    }
}

fn after_right(word: &Token) -> Option<Expected>
    ensures { result ≡ after_right word.now }
{
    match word {
        Token::Column(_) | Token::Integer(_) | Token::Text(_) | Token::Flag(_) => Some(
            Expected::Joint,
        ),
        Token::Len => Some(Expected::RightLength),
        _ => None,
    }
}

fn after_is(word: &Token) -> Option<Expected>
    ensures { result ≡ after_is word.now }
{
    match word {
        Token::Null => Some(Expected::Joint),
        _ => None,
    }
}

fn after_native(word: &Token) -> Option<Expected>
    ensures { result ≡ after_native word.now }
{
    match word {
        Token::Integer(n) if u16::try_from(*n).is_ok() => Some(Expected::Argument),
        _ => None,
    }
}

fn after_number(word: &Token) -> Option<Expected>
    ensures { result ≡ after_number word.now }
{
    match word {
        Token::Column(_) => Some(Expected::Joint),
        Token::Open => Some(Expected::Arguments),
        _ => None,
    }
}

fn after_argument(word: &Token) -> Option<Expected>
    ensures { result ≡ after_argument word.now }
{
    match word {
        Token::Comma => Some(Expected::Arguments),
        Token::Close => Some(Expected::Joint),
        _ => None,
    }
}

fn after_joint(word: &Token) -> Option<Expected>
    ensures { result ≡ after_joint word.now }
{
    match word {
        Token::And | Token::Or => Some(Expected::Operand),
        _ => None,
    }
}
