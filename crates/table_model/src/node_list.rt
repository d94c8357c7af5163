ghost use Rattle.std.specs.Prelude.{◌≡◌, ◌∷◌, [], ◌++◌, OnErr, OnOk};

use std::alloc::AllocError;
use std::marker::Model;
use update_model::Node;

/// A list of nodes in the order of arrival. A contract sees the list of its items.
#[derive(Drop)]
pub struct NodeList {
    nodes: Vec<Node>,
}

impl Model for NodeList {
    ghost use Rattle.std.specs.Prelude.{List};
    ghost use Rattle.update_model.specs.Node.{NodeData};

    ghost Value = { List NodeData };

    ghost view = { λ list. list.nodes.items };
}

impl NodeList {
    /// Takes over a vector.
    pub fn from_vec(nodes: Vec<Node>) -> Self
        ensures { result ≡ nodes.items }
    {
        NodeList { nodes }
    }

    /// Lends the items.
    pub fn as_slice(&self) -> &[Node]
        ensures { result.now ≡ self.now }
    {
        self.nodes.as_slice()
    }

    /// Gives the vector back.
    pub fn into_vec(self) -> Vec<Node>
        ensures { result.items ≡ self }
    {
        let NodeList { nodes } = self;
        nodes
    }

    /// Puts one more at the end. Where memory runs out the list is as it was.
    pub fn push(&mut self, node: Node) -> Result<(), AllocError>
        ensures added { OnOk result (self.new ≡ self.old ++ node ∷ []) }
        ensures same { OnErr result (self.new ≡ self.old) }
    {
        self.nodes.push(node)?;
        Ok(())
    }
}
