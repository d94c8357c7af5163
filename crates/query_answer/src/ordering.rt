//! The order of the rows of an answer.

ghost use Rattle.std.specs.Prelude.{◌≡◌, map, slice_get, unwrap_or};
ghost use Rattle.row_check.specs.Meaning.{value_at};
ghost use Rattle.std.specs.List.Sorted.{IsPermutation, IsSorted};
ghost use Rattle.query_answer.specs.Answers.{line_cmp};
ghost use Rattle.query_answer.specs.Rows.{told};
ghost use Rattle.query_answer.specs.Order.{rank_of, value_cmp, key_cmp, found_cmp};

use crate::found::FoundValue;
use crate::line::Line;
use crate::values::name_cmp;
use query::Key;
use std::cmp::Ordering;
use update_model::Value;

/// Which of two values of different kinds comes first.
fn rank_of(value: &Value) -> u8
    ensures { result ≡ rank_of value.now }
{
    match value {
        Value::Null => 0,
        Value::Int(_) => 1,
        Value::Text(_) => 2,
        Value::Flag(_) => 3,
        Value::Row(_) => 4,
        Value::Own(_) => 5,
    }
}

/// The order of two values.
fn value_cmp(a: &Value, b: &Value) -> Ordering
    ensures { result ≡ value_cmp a.now b.now }
{
    match (a, b) {
        (Value::Int(a), Value::Int(b)) => a.cmp(b),
        (Value::Text(a), Value::Text(b)) => a.as_slice().cmp(b.as_slice()),
        (Value::Flag(a), Value::Flag(b)) => a.cmp(b),
        (Value::Row(a), Value::Row(b)) => name_cmp(a, b),
        _ => rank_of(a).cmp(&rank_of(b)),
    }
}

/// The order by one key.
fn key_cmp(descending: bool, a: &Value, b: &Value) -> Ordering
    ensures { result ≡ key_cmp descending a.now b.now }
{
    if descending {
        value_cmp(b, a)
    } else {
        value_cmp(a, b)
    }
}

/// The value at a place, and this one where there is none.
fn value_or<'b>(values: &'b [FoundValue], at: usize, absent: &'b Value) -> &'b Value
    ensures { result.now ≡ unwrap_or (slice_get (map told values.now) at) absent.now }
{
    match values.get(at) {
        Some(found) => found.value(),
        None => absent,
    }
}

/// The order by one key, whose values stand at a place.
fn place_cmp(descending: bool, a: &[FoundValue], b: &[FoundValue], at: usize) -> Ordering
    ensures { result ≡ key_cmp descending (value_at (map told a.now) at) (value_at (map told b.now) at) }
{
    let absent = Value::Null;
    key_cmp(
        descending,
        value_or(a, at, &absent),
        value_or(b, at, &absent),
    )
}

/// The order by values of one key after another.
fn found_cmp(keys: &[Key], a: &[FoundValue], b: &[FoundValue]) -> Ordering
    ensures { result ≡ found_cmp 0 keys.now (map told a.now) (map told b.now) }
{
    for (at, key) in keys.iter().enumerate() {
        let order = place_cmp(key.descending, a, b, at);
        if order.is_ne() {
            return order;
        }
    }
    Ordering::Equal
}

/// The order of two rows, by their keys and then by their names.
pub(crate) fn line_cmp(keys: &[Key], a: &Line, b: &Line) -> Ordering
    ensures { result ≡ line_cmp keys.now a.now b.now }
{
    let order = found_cmp(keys, a.keys.as_slice(), b.keys.as_slice());
    order.then(name_cmp(a.row.name(), b.row.name()))
}

/// Puts rows in order.
pub(crate) fn sort_lines(keys: &[Key], lines: &mut Vec<Line>)
    ensures exact { IsPermutation lines.old.items lines.new.items }
    ensures ordered { IsSorted (line_cmp keys.now) lines.new.items }
{
    lines.sort_unstable_by(|a, b| line_cmp(keys, a, b));
}
