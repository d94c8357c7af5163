ghost use Rattle.std.specs.Prelude.{◌≡◌, IfOk};

use crate::{AuthorKey, IdList, OpList, UpdateId};
use std::alloc::{AllocError, Global};
use std::marker::Model;

/// An update as tables see it: who wrote which operations, and after which updates. It has neither the update's
/// bytes nor its signature.
///
/// Its type keeps that there are at most 256 operations, and nothing else: a node may be made directly, of an
/// update that nobody signed.
#[derive(Drop)]
pub struct Node {
    /// The update's id.
    pub id: UpdateId,
    /// The ids of its direct predecessors.
    pub preds: IdList,
    /// The author's public key.
    pub author: AuthorKey,
    /// What it does to rows, at most 256 operations, which number from 0.
    pub ops: OpList,
}

impl Model for Node {
    ghost use Rattle.update_model.specs.Node.{NodeData, IsNode};

    ghost Value = { NodeData };

    ghost view = { λ node. record { id = node.id; preds = node.preds; author = node.author; ops = node.ops } };

    ghost invariant = { λ node. IsNode (record {
      id = node.id;
      preds = node.preds;
      author = node.author;
      ops = node.ops;
    }) };
}

impl Node {
    /// An equal node on memory of its own.
    pub fn copy(&self, alloc: Global) -> Result<Node, AllocError>
        ensures { IfOk result (λ node. node ≡ self.now) }
    {
        Ok(Node {
            id: self.id,
            preds: self.preds.copy(alloc)?,
            author: self.author,
            ops: self.ops.copy(alloc)?,
        })
    }
}
