use crate::NodeList;

/// A history that breaks an invariant: what both sides have, and what each side has besides. Each list is in the order
/// of arrival.
#[derive(Drop)]
pub struct Counterexample {
    /// The updates that both sides have.
    pub base: NodeList,
    /// Those that one side has besides.
    pub left: NodeList,
    /// Those that the other side has besides.
    pub right: NodeList,
}
