use update_model::Node;

/// An update and how deep it lies.
#[derive(Drop)]
pub struct Placed {
    /// One more than the greatest depth of its predecessors.
    pub depth: u32,
    /// The update.
    pub node: Node,
}
