ghost use Rattle.std.specs.Prelude.{◌≡◌, List, IfOk};
ghost use Rattle.update_model.specs.declared.op.Op.{Op};

use crate::Op;
use std::alloc::{AllocError, Global};
use std::marker::Model;

/// A list of operations, which number from 0. A contract sees the list of its items.
#[derive(Drop)]
pub struct OpList {
    ops: Vec<Op>,
}

impl Model for OpList {
    ghost Value = { List Op };

    ghost view = { λ list. list.ops.items };
}

impl OpList {
    /// Takes over a vector.
    pub fn from_vec(ops: Vec<Op>) -> Self
        ensures { result ≡ ops.items }
    {
        OpList { ops }
    }

    /// Lends the operations.
    pub fn as_slice(&self) -> &[Op]
        ensures { result.now ≡ self.now }
    {
        self.ops.as_slice()
    }

    /// Gives the vector back.
    pub fn into_vec(self) -> Vec<Op>
        ensures { result.items ≡ self }
    {
        let OpList { ops } = self;
        ops
    }

    /// An equal list on memory of its own.
    pub fn copy(&self, alloc: Global) -> Result<OpList, AllocError>
        ensures { IfOk result (λ list. list ≡ self.now) }
    {
        let mut ops = Vec::with_capacity(alloc, self.ops.len())?;
        for op in self.ops.as_slice() {
            ops.push(op.copy(alloc)?)?;
        }
        Ok(OpList { ops })
    }
}
