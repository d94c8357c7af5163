ghost use Rattle.std.specs.Prelude.{◌≡◌, ◌≤◌, length, All, IfOk, IsSome, Some};
ghost use Rattle.expression_text.specs.Columns.{IsKnown, HasRowText, column_in};
ghost use Rattle.expression_text.specs.Grammar.{IsExpression, IsReading};
ghost use Rattle.expression_text.specs.Machine.{step as after_token, step_begun as after_begun};
ghost use Rattle.expression_text.specs.Machine.{step_finished as after_finished, settled as settled_with, outcome};
ghost use Rattle.row_check.specs.Trees.{tree_of};
ghost use Rattle.expression_text.specs.Views.{reading_of, frames_of};

use crate::pending::{Pending, closed, completed, joined, opened};
use crate::progress::Progress;
use crate::{MAX_WORDS, Token};
use row_check::Expr;
use std::alloc::{AllocError, Global};
use update_model::TextValue;

/// The expression that the tokens are, over the columns with these names, numbered from 0.
///
/// [`crate::is_expression`], [`crate::are_known`] and [`crate::are_row_texts`] tell what it needs.
pub fn build(alloc: Global, tokens: &[Token], names: &[TextValue]) -> Result<Expr, AllocError>
    requires short { length tokens.now ≤ MAX_WORDS }
    requires few { length names.now ≤ 256 }
    requires expression { IsExpression tokens.now }
    requires known { All (IsKnown names.now) tokens.now }
    requires texts { All HasRowText tokens.now }
    ensures { IfOk result (λ expr. IsReading names.now tokens.now expr) }
{
    let mut progress = Progress::Begun;
    let mut pending = Vec::new(alloc);
    for token in tokens {
        progress = step(alloc, progress, &mut pending, token, names)?;
    }
    finish(alloc, progress, pending)
}

/// What has been read after a token more.
fn step(
    alloc: Global,
    progress: Progress,
    pending: &mut Vec<Pending>,
    token: &Token,
    names: &[TextValue],
) -> Result<Progress, AllocError>
    requires few { length names.now ≤ 256 }
    requires text { HasRowText token.now }
    ensures { IfOk result (λ after. (reading_of after, frames_of pending.new.items) ≡ after_token (column_in names.now)
        (reading_of progress) (frames_of pending.old.items) token.now) }
{
    match progress {
        Progress::Begun => step_begun(alloc, pending, token, names),
        Progress::Finished(expr) => step_finished(alloc, expr, pending, token),
        other => {
            let read = other.more(alloc, token, names)?;
            settled(alloc, read, pending)
        }
    }
}

fn step_begun(
    alloc: Global,
    pending: &mut Vec<Pending>,
    token: &Token,
    names: &[TextValue],
) -> Result<Progress, AllocError>
    requires few { length names.now ≤ 256 }
    requires text { HasRowText token.now }
    ensures { IfOk result (λ after. (reading_of after, frames_of pending.new.items) ≡ after_begun (column_in names.now)
        (frames_of pending.old.items) token.now) }
{
    match token {
        Token::Not => opened(pending, Pending::Not),
        Token::Open => opened(pending, Pending::Bracket),
        other => Progress::Begun.more(alloc, other, names),
    }
}

fn step_finished(
    alloc: Global,
    expr: Expr,
    pending: &mut Vec<Pending>,
    token: &Token,
) -> Result<Progress, AllocError>
    ensures { IfOk result (λ after. (reading_of after, frames_of pending.new.items) ≡ after_finished (tree_of expr)
        (frames_of pending.old.items) token.now) }
{
    match token {
        Token::And => opened(pending, Pending::And(expr)),
        Token::Or => {
            let left = joined(alloc, expr, pending)?;
            opened(pending, Pending::Or(left))
        }
        Token::Close => {
            let inner = joined(alloc, expr, pending)?;
            closed(alloc, inner, pending)
        }
        _ => Ok(Progress::Refused),
    }
}

/// An operand that is whole now is completed.
fn settled(
    alloc: Global,
    read: Progress,
    pending: &mut Vec<Pending>,
) -> Result<Progress, AllocError>
    ensures { IfOk result (λ after. (reading_of after, frames_of pending.new.items) ≡ settled_with (reading_of read)
        (frames_of pending.old.items)) }
{
    match read {
        Progress::Finished(expr) => completed(alloc, expr, pending),
        other => Ok(other),
    }
}

/// A whole expression, of which nothing stands open.
fn finish(alloc: Global, progress: Progress, mut pending: Vec<Pending>) -> Result<Expr, AllocError>
    requires { IsSome (outcome (reading_of progress) (frames_of pending.items)) }
    ensures { IfOk result (λ expr. outcome (reading_of progress) (frames_of pending.items) ≡ Some (tree_of expr)) }
{
    match progress {
        Progress::Finished(expr) => joined(alloc, expr, &mut pending),
        _ => unreachable!(),
    }
}
