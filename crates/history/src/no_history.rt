use row_check::{Native, Relation};

/// There is no history, since memory ran out.
#[derive(Drop)]
pub struct NoHistory<L: Relation, C> {
    /// The native checks, as they were given.
    pub native: Native<L, C>,
}
