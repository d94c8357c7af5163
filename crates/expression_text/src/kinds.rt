ghost use Rattle.std.specs.Prelude.{◌≡◌, ◌↔◌, IsTrue, IsSome, is_some, slice_get};
ghost use Rattle.std.specs.List.{list_all};
ghost use Rattle.row_check.specs.Kinds.{HasKinds, plain_kind as kind_of_plain, literal_kind as kind_of_literal};
ghost use Rattle.row_check.specs.Kinds.{length_kind as kind_of_length, term_kind as kind_of_term};
ghost use Rattle.row_check.specs.Trees.{tree_of};

use row_check::{Expr, Kind, Term};
use update_model::Value;

/// Whether an expression fits columns of these kinds: each column that it reads is a plain one, LEN is of a text, and
/// the sides of each comparison have one kind.
///
/// An expression that does fits each row that has a value of its kind, or null, in each column, so that
/// [`row_check::eval`] may be asked.
pub fn has_kinds(expr: &Expr, kinds: &[Kind]) -> bool
    ensures { IsTrue result ↔ HasKinds kinds.now (tree_of expr.now) }
{
    match expr {
        Expr::And(a, b) => has_kinds(a, kinds) && has_kinds(b, kinds),
        Expr::Or(a, b) => has_kinds(a, kinds) && has_kinds(b, kinds),
        Expr::Not(a) => has_kinds(a, kinds),
        Expr::Compare {
            left,
            cmp: _,
            right,
        } => are_alike(term_kind(left, kinds), term_kind(right, kinds)),
        Expr::IsNull { column } => plain_kind(*column, kinds).is_some(),
        Expr::Native { number: _, columns } => are_plain(columns.as_slice(), kinds),
    }
}

/// Whether both are one kind.
fn are_alike(left: Option<Kind>, right: Option<Kind>) -> bool
    ensures { IsTrue result ↔ (IsSome left × (left ≡ right)) }
{
    match (left, right) {
        (Some(Kind::Int), Some(Kind::Int)) => true,
        (Some(Kind::Text), Some(Kind::Text)) => true,
        (Some(Kind::Flag), Some(Kind::Flag)) => true,
        (Some(Kind::Reference), Some(Kind::Reference)) => true,
        _ => false,
    }
}

/// The kind of a side of a comparison.
fn term_kind(term: &Term, kinds: &[Kind]) -> Option<Kind>
    ensures { result ≡ kind_of_term kinds.now term.now }
{
    match term {
        Term::Column(column) => plain_kind(*column, kinds),
        Term::Literal(literal) => literal_kind(literal),
        Term::Length(column) => length_kind(plain_kind(*column, kinds)),
    }
}

fn literal_kind(literal: &Value) -> Option<Kind>
    ensures { result ≡ kind_of_literal literal.now }
{
    match literal {
        Value::Int(_) => Some(Kind::Int),
        Value::Text(_) => Some(Kind::Text),
        Value::Flag(_) => Some(Kind::Flag),
        _ => None,
    }
}

/// The kind of LEN of a column of this kind.
fn length_kind(kind: Option<Kind>) -> Option<Kind>
    ensures { result ≡ kind_of_length kind }
{
    match kind {
        Some(Kind::Text) => Some(Kind::Int),
        _ => None,
    }
}

/// The kind of a column that is there and is no reference.
fn plain_kind(column: u8, kinds: &[Kind]) -> Option<Kind>
    ensures { result ≡ kind_of_plain kinds.now column }
{
    match kinds.get(usize::from(column)) {
        Some(Kind::Reference) | None => None,
        Some(kind) => Some(*kind),
    }
}

fn are_plain(columns: &[u8], kinds: &[Kind]) -> bool
    ensures { result ≡ list_all (λ column. is_some (kind_of_plain kinds.now column)) columns.now }
{
    columns
        .iter()
        .all(|column| plain_kind(*column, kinds).is_some())
}
