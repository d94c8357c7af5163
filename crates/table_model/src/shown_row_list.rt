ghost use Rattle.std.specs.Prelude.{◌≡◌, ◌∷◌, [], ◌++◌, OnErr, OnOk};

use crate::ShownRow;
use std::alloc::AllocError;
use std::marker::Model;

/// A list of shown rows, in rising order of names. A contract sees the list of its items.
#[derive(Drop)]
pub struct ShownRowList {
    rows: Vec<ShownRow>,
}

impl Model for ShownRowList {
    ghost use Rattle.std.specs.Prelude.{List};
    ghost use Rattle.table_model.specs.declared.shown_row.ShownRow.{ShownRow};

    ghost Value = { List ShownRow };

    ghost view = { λ list. list.rows.items };
}

impl ShownRowList {
    /// Takes over a vector.
    pub fn from_vec(rows: Vec<ShownRow>) -> Self
        ensures { result ≡ rows.items }
    {
        ShownRowList { rows }
    }

    /// Lends the items.
    pub fn as_slice(&self) -> &[ShownRow]
        ensures { result.now ≡ self.now }
    {
        self.rows.as_slice()
    }

    /// Gives the vector back.
    pub fn into_vec(self) -> Vec<ShownRow>
        ensures { result.items ≡ self }
    {
        let ShownRowList { rows } = self;
        rows
    }

    /// Puts one more at the end. Where memory runs out the list is as it was.
    pub fn push(&mut self, row: ShownRow) -> Result<(), AllocError>
        ensures added { OnOk result (self.new ≡ self.old ++ row ∷ []) }
        ensures same { OnErr result (self.new ≡ self.old) }
    {
        self.rows.push(row)?;
        Ok(())
    }
}
