ghost use Rattle.std.specs.Prelude.{◌≡◌};

use std::marker::Model;
use table_model::ShownRowList;

/// A list of the rows of each table. A contract sees the list of these lists.
#[derive(Drop)]
pub struct RowLists {
    lists: Vec<ShownRowList>,
}

impl Model for RowLists {
    ghost use Rattle.std.specs.Prelude.{List};
    ghost use Rattle.table_model.specs.declared.shown_row.ShownRow.{ShownRow};

    ghost Value = { List (List ShownRow) };

    ghost view = { λ list. list.lists.items };
}

impl RowLists {
    /// Takes over a vector.
    pub fn from_vec(lists: Vec<ShownRowList>) -> Self
        ensures { result ≡ lists.items }
    {
        RowLists { lists }
    }

    /// Lends the lists.
    pub fn as_slice(&self) -> &[ShownRowList]
        ensures { result.now ≡ self.now }
    {
        self.lists.as_slice()
    }

    /// Gives the vector back.
    pub fn into_vec(self) -> Vec<ShownRowList>
        ensures { result.items ≡ self }
    {
        let RowLists { lists } = self;
        lists
    }
}
