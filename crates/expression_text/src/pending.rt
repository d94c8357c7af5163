ghost use Rattle.std.specs.Prelude.{◌≡◌, ◌∷◌, IfOk, OnOk, if◌then◌else◌};
ghost use Rattle.expression_text.specs.Machine.{complete, close, join, Begun, Finished, Refused};
ghost use Rattle.row_check.specs.Trees.{Tree, tree_of, Both, Either};
ghost use Rattle.expression_text.specs.Views.{reading_of, frame_of, frames_of};

use crate::progress::Progress;
use row_check::Expr;
use std::alloc::{AllocError, Global};

/// What stands open before an operand.
#[derive(Drop)]
pub(crate) enum Pending {
    /// A parenthesis.
    Bracket,
    /// NOT.
    Not,
    /// A left side and AND.
    And(Expr),
    /// A left side and OR.
    Or(Expr),
}

/// What is read next after an opening word, which stands open from now on.
pub(crate) fn opened(pending: &mut Vec<Pending>, word: Pending) -> Result<Progress, AllocError>
    ensures begun { IfOk result (λ after. reading_of after ≡ Begun) }
    ensures open { OnOk result (frames_of pending.new.items ≡ frame_of word ∷ frames_of pending.old.items) }
{
    pending.push(word)?;
    Ok(Progress::Begun)
}

/// A whole operand, with each NOT that stands directly before it, and joined with what stands before an AND.
pub(crate) fn completed(
    alloc: Global,
    expr: Expr,
    pending: &mut Vec<Pending>,
) -> Result<Progress, AllocError>
    ensures { IfOk result (λ progress. (reading_of progress, frames_of pending.new.items) ≡ complete (tree_of expr)
        (frames_of pending.old.items)) }
{
    let mut whole = expr;
    loop {
        match pending.pop() {
            None => return Ok(Progress::Finished(whole)),
            Some(Pending::Not) => {
                let inner = boxed(alloc, whole)?;
                whole = Expr::Not(inner);
            }
            Some(Pending::And(left)) => return both(alloc, left, whole),
            Some(other) => {
                pending.push(other).unwrap();
                return Ok(Progress::Finished(whole));
            }
        }
    }
}

/// A whole operand of two that AND joins.
fn both(alloc: Global, left: Expr, right: Expr) -> Result<Progress, AllocError>
    ensures { IfOk result (λ progress. reading_of progress ≡ Finished (Both (tree_of left) (tree_of right))) }
{
    let (left, right) = boxed_pair(alloc, left, right)?;
    Ok(Progress::Finished(Expr::And(left, right)))
}

/// An expression, joined with what stands before an OR.
pub(crate) fn joined(
    alloc: Global,
    expr: Expr,
    pending: &mut Vec<Pending>,
) -> Result<Expr, AllocError>
    ensures { IfOk result (λ whole. (tree_of whole, frames_of pending.new.items) ≡ join (tree_of expr)
        (frames_of pending.old.items)) }
{
    match pending.pop() {
        None => Ok(expr),
        Some(Pending::Or(left)) => either(alloc, left, expr),
        Some(other) => {
            pending.push(other).unwrap();
            Ok(expr)
        }
    }
}

/// Two expressions that OR joins.
fn either(alloc: Global, left: Expr, right: Expr) -> Result<Expr, AllocError>
    ensures { IfOk result (λ whole. tree_of whole ≡ Either (tree_of left) (tree_of right)) }
{
    let (left, right) = boxed_pair(alloc, left, right)?;
    Ok(Expr::Or(left, right))
}

fn boxed_pair(alloc: Global, left: Expr, right: Expr) -> Result<(Box<Expr>, Box<Expr>), AllocError>
    ensures { IfOk result (λ pair. (pair.0.value ≡ left) × (pair.1.value ≡ right)) }
{
    let left = boxed(alloc, left)?;
    let right = boxed(alloc, right)?;
    Ok((left, right))
}

fn boxed(alloc: Global, expr: Expr) -> Result<Box<Expr>, AllocError>
    ensures { IfOk result (λ inner. inner.value ≡ expr) }
{
    let inner = Box::new(alloc, expr)?;
    Ok(inner)
}

/// After the parenthesis that closes an expression.
pub(crate) fn closed(
    alloc: Global,
    expr: Expr,
    pending: &mut Vec<Pending>,
) -> Result<Progress, AllocError>
    ensures { IfOk result (λ progress. (reading_of progress, frames_of pending.new.items) ≡ close (tree_of expr)
        (frames_of pending.old.items)) }
{
    if takes_bracket(pending) {
        completed(alloc, expr, pending)
    } else {
        Ok(Progress::Refused)
    }
}

/// Takes the parenthesis that stands open last. Where another stands there, it stays.
fn takes_bracket(pending: &mut Vec<Pending>) -> bool
    ensures { (tree : Tree)
        → close tree (frames_of pending.old.items) ≡ (if result then complete tree (frames_of pending.new.items) else
        (Refused, frames_of pending.new.items)) }
{
    match pending.pop() {
        None => false,
        Some(Pending::Bracket) => true,
        Some(other) => {
            pending.push(other).unwrap();
            false
        }
    }
}
