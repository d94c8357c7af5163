ghost use Rattle.std.specs.Prelude.{◌≡◌, ◌↔◌, IsTrue, IfOk};

use crate::{RowName, TextValue};
use std::alloc::{AllocError, Global};

/// A value in a row, or one that an operation gives to a row.
#[derive(Drop)]
pub enum Value {
    /// No value.
    Null,
    /// An integer.
    Int(i64),
    /// A text.
    Text(TextValue),
    /// A truth value.
    Flag(bool),
    /// A reference to a row.
    Row(RowName),
    /// A reference to the row that an earlier operation of the same update inserts, by that operation's number.
    Own(u16),
}

impl Value {
    /// Whether both are the same value: of one kind, with the same contents. Null equals null here, unlike in an
    /// expression.
    pub fn equals(&self, other: &Value) -> bool
        ensures { IsTrue result ↔ (self.now ≡ other.now) }
    {
        match (self, other) {
            (Value::Null, Value::Null) => true,
            (Value::Int(a), Value::Int(b)) => a == b,
            (Value::Text(a), Value::Text(b)) => a.as_slice() == b.as_slice(),
            (Value::Flag(a), Value::Flag(b)) => a == b,
            (Value::Row(a), Value::Row(b)) => a == b,
            (Value::Own(a), Value::Own(b)) => a == b,
            _ => false,
        }
    }

    /// An equal value on memory of its own.
    pub fn copy(&self, alloc: Global) -> Result<Value, AllocError>
        ensures { IfOk result (λ value. value ≡ self.now) }
    {
        Ok(match self {
            Value::Null => Value::Null,
            Value::Int(n) => Value::Int(*n),
            Value::Text(text) => Value::Text(text.copy(alloc)?),
            Value::Flag(flag) => Value::Flag(*flag),
            Value::Row(row) => Value::Row(*row),
            Value::Own(index) => Value::Own(*index),
        })
    }
}
