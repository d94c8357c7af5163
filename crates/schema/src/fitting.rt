ghost use Rattle.std.specs.Prelude.{◌≡◌};
ghost use Rattle.schema.specs.Columns.{all_fit, fits, fits_kind};

use crate::{Column, ColumnKind};
use update_model::Value;

/// Whether there is a value for each column, and each may stand in it.
pub fn all_fit(columns: &[Column], values: &[Value]) -> bool
    ensures { result ≡ all_fit columns.now values.now }
{
    match columns {
        [] => values.is_empty(),
        [column, columns @ ..] => match values {
            [] => false,
            [value, values @ ..] => fits_column(column, value) && all_fit(columns, values),
        },
    }
}

/// Whether a value may stand in a column: null where it may have none, else a value of its kind and within its bounds.
/// Every name of a row may stand in a reference.
pub fn fits_column(column: &Column, value: &Value) -> bool
    ensures { result ≡ fits column.now value.now }
{
    match value {
        Value::Null => column.null,
        Value::Int(_) | Value::Text(_) | Value::Flag(_) | Value::Row(_) | Value::Own(_) => {
            fits_kind(&column.kind, value)
        }
    }
}

/// Whether a value that is not null is of a kind and within its bounds.
fn fits_kind(kind: &ColumnKind, value: &Value) -> bool
    ensures { result ≡ fits_kind kind.now value.now }
{
    match (kind, value) {
        (ColumnKind::Int { lo, hi }, Value::Int(n)) => *lo <= *n && *n <= *hi,
        (ColumnKind::Text { lo, hi }, Value::Text(text)) => {
            let len = text.as_slice().len();
            usize::from(*lo) <= len && len <= usize::from(*hi)
        }
        (ColumnKind::Flag, Value::Flag(_)) => true,
        (ColumnKind::Reference { .. }, Value::Row(_) | Value::Own(_)) => true,
        _ => false,
    }
}
