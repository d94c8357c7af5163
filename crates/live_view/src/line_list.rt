ghost use Rattle.std.specs.Prelude.{◌≡◌, ◌↔◌, [], IsTrue, length};

use std::marker::Model;
use update_model::ValueList;

/// A list of lines, each of which has the values of a row. A contract sees it as the list of their values.
#[derive(Drop)]
pub struct LineList {
    lines: Vec<ValueList>,
}

impl Model for LineList {
    ghost use Rattle.std.specs.Prelude.{List};
    ghost use Rattle.update_model.specs.declared.value.Value.{Value as RowValue};

    ghost Value = { List (List RowValue) };

    ghost view = { λ list. list.lines.items };
}

impl LineList {
    /// Takes over a vector.
    pub fn from_vec(lines: Vec<ValueList>) -> LineList
        ensures { result ≡ lines.items }
    {
        LineList { lines }
    }

    /// Lends the lines.
    pub fn as_slice(&self) -> &[ValueList]
        ensures { result.now ≡ self.now }
    {
        self.lines.as_slice()
    }

    /// How many they are.
    pub fn len(&self) -> usize
        ensures { result ≡ length self.now }
    {
        self.lines.len()
    }

    /// Whether there is none.
    pub fn is_empty(&self) -> bool
        ensures { IsTrue result ↔ (self.now ≡ []) }
    {
        self.lines.is_empty()
    }
}
