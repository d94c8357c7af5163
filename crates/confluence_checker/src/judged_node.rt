use table_model::Verdict;
use update_model::{Node, UpdateId};

/// A node with its verdict.
#[derive(Drop)]
pub(crate) struct JudgedNode {
    /// The node.
    pub(crate) node: Node,
    /// The ids of its ancestors.
    pub(crate) ancestors: Vec<UpdateId>,
    /// The verdict on it.
    pub(crate) verdict: Verdict,
}
