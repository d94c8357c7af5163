ghost use Rattle.std.specs.Prelude.{◌≡◌};
ghost use Rattle.row_check.specs.Meaning.{term_value, length_of, FitsTerm};
ghost use Rattle.row_check.specs.Sides.{side_value};

use crate::Term;
use update_model::Value;

/// A side of a comparison: a value that stands in the row or in the expression, or a length.
#[derive(Drop)]
pub(crate) enum Side<'a> {
    Lent(&'a Value),
    Length(Value),
}

impl Side<'_> {
    /// The value.
    pub(crate) fn value(&self) -> &Value
        ensures { result.now ≡ side_value self.now }
    {
        match self {
            Side::Lent(value) => value,
            Side::Length(value) => value,
        }
    }
}

/// The value of a term.
pub(crate) fn side_of<'a>(term: &'a Term, row: &'a [Value]) -> Side<'a>
    requires { FitsTerm row.now term.now }
    ensures { side_value result ≡ term_value row.now term.now }
{
    match term {
        Term::Column(column) => Side::Lent(&row[usize::from(*column)]),
        Term::Literal(value) => Side::Lent(value),
        Term::Length(column) => Side::Length(measure(&row[usize::from(*column)])),
    }
}

/// The length of a text in bytes, or null.
fn measure(value: &Value) -> Value
    ensures { result ≡ length_of value.now }
{
    match value {
        Value::Text(text) => Value::Int(text.as_slice().len() as i64),
        _ => Value::Null,
    }
}
