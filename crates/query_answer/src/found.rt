ghost use Rattle.std.specs.Prelude.{◌≡◌, IfOk, option_copied, unwrap_or};
ghost use Rattle.update_model.specs.declared.value.Value.TheVariants.{Null};
ghost use Rattle.query_answer.specs.Rows.{told};

use std::alloc::{AllocError, Global};
use update_model::Value;

/// What a row has somewhere: a value that is lent, or one that was made, as of a row's name.
#[derive(Drop)]
pub(crate) enum FoundValue<'a> {
    Lent(&'a Value),
    Made(Value),
}

impl<'a> FoundValue<'a> {
    /// A value that is lent, and null where none is.
    pub(crate) fn new(value: Option<&'a Value>) -> FoundValue<'a>
        ensures { told result ≡ unwrap_or (option_copied value.entry) Null }
    {
        match value {
            Some(value) => FoundValue::Lent(value),
            None => FoundValue::Made(Value::Null),
        }
    }

    /// Lends the value.
    pub(crate) fn value(&self) -> &Value
        ensures { result.now ≡ told self.now }
    {
        match self {
            FoundValue::Lent(value) => value,
            FoundValue::Made(value) => value,
        }
    }

    /// The value on memory of its own.
    pub(crate) fn copy(&self, alloc: Global) -> Result<Value, AllocError>
        ensures { IfOk result (λ value. value ≡ told self.now) }
    {
        self.value().copy(alloc)
    }
}
