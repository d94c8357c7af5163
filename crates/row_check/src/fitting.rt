ghost use Rattle.std.specs.Prelude.{◌≡◌, ◌↔◌, ◌<◌, length, nat_lt, All, IsTrue};
ghost use Rattle.std.specs.List.{list_all};
ghost use Rattle.row_check.specs.Meaning.{FitsRow, FitsTerm, IsTextOrNull};

use crate::comparing::are_comparable;
use crate::side::side_of;
use crate::{Expr, Term};
use update_model::Value;

/// Whether an expression fits a row, so that [`crate::eval`] may answer it.
///
/// It does where the row has each column that the expression names, LEN is of a text or of null, and where neither
/// side of a comparison is null, both are integers, both texts or both flags.
pub fn fits(expr: &Expr, row: &[Value]) -> bool
    ensures { IsTrue result ↔ FitsRow row.now expr.now }
{
    match expr {
        Expr::And(a, b) => fits(a, row) && fits(b, row),
        Expr::Or(a, b) => fits(a, row) && fits(b, row),
        Expr::Not(a) => fits(a, row),
        Expr::Compare {
            left,
            cmp: _,
            right,
        } => {
            fits_term(left, row)
                && fits_term(right, row)
                && are_comparable(side_of(left, row).value(), side_of(right, row).value())
        }
        Expr::IsNull { column } => usize::from(*column) < row.len(),
        Expr::Native { number: _, columns } => has_columns(columns.as_slice(), row),
    }
}

fn fits_term(term: &Term, row: &[Value]) -> bool
    ensures { IsTrue result ↔ FitsTerm row.now term.now }
{
    match term {
        Term::Column(column) => usize::from(*column) < row.len(),
        Term::Literal(_) => true,
        Term::Length(column) => {
            usize::from(*column) < row.len() && is_text_or_null(&row[usize::from(*column)])
        }
    }
}

fn is_text_or_null(value: &Value) -> bool
    ensures { IsTrue result ↔ IsTextOrNull value.now }
{
    matches!(value, Value::Text(_) | Value::Null)
}

/// Whether the row has all these columns.
fn has_columns(columns: &[u8], row: &[Value]) -> bool
    ensures { result ≡ list_all (λ column. nat_lt column (length row.now)) columns.now }
{
    columns
        .iter()
        .all(|column| usize::from(*column) < row.len())
}
