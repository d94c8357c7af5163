//! Tests of operations that are to stand in a body.
//!
//! Machine ranges hold by type. Where a function reads a number that it does not use, the proof learns its range.

ghost use Rattle.std.specs.Prelude.{◌≤◌, ◌↔◌, ◌<◌, ℕ, IsTrue, length};
ghost use Rattle.std.specs.List.{AllByRecursion};
ghost use Rattle.update_model.specs.Rows.{IsRowName, IsValue, IsOp, AreOps};

use crate::{MAX_OPS, MAX_VALUES, Op, RowName, Value};

/// Whether the operations may stand in a body with a note, which has at most 256 of them: each insert gives one to
/// sixteen values, and each own reference names an earlier operation.
pub fn check_ops(ops: &[Op]) -> bool
    ensures { IsTrue result ↔ ((length ops.now ≤ MAX_OPS) × AreOps 0 ops.now) }
{
    ops.len() <= MAX_OPS as usize && are_ops(ops)
}

// whether each operation is in form
fn are_ops(ops: &[Op]) -> bool
    ensures { IsTrue result ↔ AreOps 0 ops.now }
{
    for (number, op) in ops.iter().enumerate() {
        if !is_op(number, op) {
            return false;
        }
    }
    true
}

// whether the operation with this number is in form
fn is_op(number: usize, op: &Op) -> bool
    ensures { IsTrue result ↔ IsOp number op.now }
{
    match op {
        Op::Insert { table, values } => {
            let _table = *table; // it is a byte
            let values = values.as_slice();
            1 <= values.len() && values.len() <= MAX_VALUES as usize && are_values(number, values)
        }
        Op::Delete { row } => is_row_name(*row),
    }
}

// whether the values may stand in the operation with this number
fn are_values(number: usize, values: &[Value]) -> bool
    ensures { IsTrue result ↔ AllByRecursion (IsValue number) values.now }
{
    values.iter().all(|value| is_value(number, value))
}

// whether the value may stand in the operation with this number
fn is_value(number: usize, value: &Value) -> bool
    ensures { IsTrue result ↔ IsValue number value.now }
{
    match value {
        Value::Null | Value::Flag(_) => true,
        Value::Int(n) => {
            let _n = *n; // it has 64 bits
            true
        }
        Value::Text(text) => {
            let _bytes = text.as_slice(); // a text is in form
            true
        }
        Value::Row(row) => is_row_name(*row),
        Value::Own(index) => (*index as usize) < number,
    }
}

// whether the name is in form, which every name is by its type
fn is_row_name(_row: RowName) -> bool
    ensures name { IsRowName _row }
    ensures value { IsTrue result }
{
    true
}
