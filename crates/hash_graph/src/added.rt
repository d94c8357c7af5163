/// Where a member stands that a graph holds after [`Graph::add`](crate::Graph::add).
#[derive(Clone, Copy)]
pub enum Added {
    /// It is new, and stands last, at this position.
    New(u32),
    /// A member with its id stood at this position already, and nothing changed.
    Known(u32),
}
