ghost use Rattle.std.specs.Prelude.{◌≡◌, ◌∷◌, [], ◌++◌, OnErr, OnOk};

use crate::VoidLine;
use std::alloc::AllocError;
use std::marker::Model;

/// A list of updates that do nothing, in rising order of ids. A contract sees the list of its items.
#[derive(Drop)]
pub struct VoidList {
    voids: Vec<VoidLine>,
}

impl Model for VoidList {
    ghost use Rattle.std.specs.Prelude.{List};
    ghost use Rattle.table_model.specs.declared.void_line.VoidLine.{VoidLine};

    ghost Value = { List VoidLine };

    ghost view = { λ list. list.voids.items };
}

impl VoidList {
    /// Takes over a vector.
    pub fn from_vec(voids: Vec<VoidLine>) -> Self
        ensures { result ≡ voids.items }
    {
        VoidList { voids }
    }

    /// Lends the items.
    pub fn as_slice(&self) -> &[VoidLine]
        ensures { result.now ≡ self.now }
    {
        self.voids.as_slice()
    }

    /// Gives the vector back.
    pub fn into_vec(self) -> Vec<VoidLine>
        ensures { result.items ≡ self }
    {
        let VoidList { voids } = self;
        voids
    }

    /// Puts one more at the end. Where memory runs out the list is as it was.
    pub fn push(&mut self, line: VoidLine) -> Result<(), AllocError>
        ensures added { OnOk result (self.new ≡ self.old ++ line ∷ []) }
        ensures same { OnErr result (self.new ≡ self.old) }
    {
        self.voids.push(line)?;
        Ok(())
    }
}
