/// One of the parts that a store, a key or a peer has in a directory.
#[derive(Clone, Copy, PartialEq, Eq)]
pub enum Part {
    /// The schema of a store and the id of its node, gated.
    Schema,
    /// The updates of a store, one after another.
    Updates,
    /// The author's key, gated.
    Key,
    /// Which one-time keys of the author's key are used.
    Used,
    /// The heads that are remembered of other nodes, gated.
    Peers,
}
