ghost use Rattle.std.specs.Prelude.{◌≡◌};

use crate::Checked;
use std::marker::Model;

/// A list of checked updates. A contract sees it as the list of their bytes.
#[derive(Drop)]
pub struct CheckedList {
    updates: Vec<Checked>,
}

impl Model for CheckedList {
    ghost use Rattle.std.specs.Prelude.{List, ℕ};

    ghost Value = { List (List ℕ) };

    ghost view = { λ list. list.updates.items };
}

impl CheckedList {
    /// Takes over a vector.
    pub fn from_vec(updates: Vec<Checked>) -> Self
        ensures { result ≡ updates.items }
    {
        CheckedList { updates }
    }

    /// Lends the updates.
    pub fn as_slice(&self) -> &[Checked]
        ensures { result.now ≡ self.now }
    {
        self.updates.as_slice()
    }

    /// Gives the vector back.
    pub fn into_vec(self) -> Vec<Checked>
        ensures { result.items ≡ self }
    {
        let CheckedList { updates } = self;
        updates
    }
}
