ghost use Rattle.std.specs.Prelude.{◌≡◌, ◌↔◌, IsTrue};
ghost use Rattle.row_check.specs.Comparisons.{compares, order_of, AreComparable};

use crate::Cmp;
use std::cmp::Ordering;
use update_model::Value;

/// Whether a comparison of two values is true.
///
/// Integers compare as numbers, texts by their bytes, and FALSE is before TRUE. No comparison of a null is true,
/// `!=` neither, and none of two values of different kinds, or of references.
pub fn compare(cmp: Cmp, left: &Value, right: &Value) -> bool
    ensures { result ≡ compares cmp left.now right.now }
{
    match order(left, right) {
        Some(order) => cmp.accepts(order),
        None => false,
    }
}

/// The order of two values that can be compared.
fn order(left: &Value, right: &Value) -> Option<Ordering>
    ensures { result ≡ order_of left.now right.now }
{
    match (left, right) {
        (Value::Int(a), Value::Int(b)) => Some(a.cmp(b)),
        (Value::Text(a), Value::Text(b)) => Some(a.as_slice().cmp(b.as_slice())),
        (Value::Flag(a), Value::Flag(b)) => Some(a.cmp(b)),
        _ => None,
    }
}

/// Whether the sides, where neither is null, are both integers, both texts or both flags.
pub(crate) fn are_comparable(left: &Value, right: &Value) -> bool
    ensures { IsTrue result ↔ AreComparable left.now right.now }
{
    match (left, right) {
        (Value::Null, _) => true,
        (_, Value::Null) => true,
        (Value::Int(_), Value::Int(_)) => true,
        (Value::Text(_), Value::Text(_)) => true,
        (Value::Flag(_), Value::Flag(_)) => true,
        _ => false,
    }
}
