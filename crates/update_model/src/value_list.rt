ghost use Rattle.std.specs.Prelude.{◌≡◌, List, IfOk};
ghost use Rattle.update_model.specs.declared.value.Value.{Value as RowValue};

use crate::Value;
use std::alloc::{AllocError, Global};
use std::marker::Model;

/// A list of values, such as those of a row in the order of its table's columns. A contract sees the list of its
/// items.
#[derive(Drop)]
pub struct ValueList {
    values: Vec<Value>,
}

impl Model for ValueList {
    ghost Value = { List RowValue };

    ghost view = { λ list. list.values.items };
}

impl ValueList {
    /// Takes over a vector.
    pub fn from_vec(values: Vec<Value>) -> Self
        ensures { result ≡ values.items }
    {
        ValueList { values }
    }

    /// Lends the values.
    pub fn as_slice(&self) -> &[Value]
        ensures { result.now ≡ self.now }
    {
        self.values.as_slice()
    }

    /// Gives the vector back.
    pub fn into_vec(self) -> Vec<Value>
        ensures { result.items ≡ self }
    {
        let ValueList { values } = self;
        values
    }

    /// An equal list on memory of its own.
    pub fn copy(&self, alloc: Global) -> Result<ValueList, AllocError>
        ensures { IfOk result (λ list. list ≡ self.now) }
    {
        let mut values = Vec::with_capacity(alloc, self.values.len())?;
        for value in self.values.as_slice() {
            values.push(value.copy(alloc)?)?;
        }
        Ok(ValueList { values })
    }
}
