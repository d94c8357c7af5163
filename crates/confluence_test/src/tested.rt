use table_model::{Counterexample, Invariant};

/// What the confluence test says of a schema.
#[derive(Drop)]
pub enum Tested {
    /// Every invariant survives merging.
    Accepted,
    /// One does not.
    Refused {
        /// The first invariant that is refused.
        which: Invariant,
        /// A history that breaks it.
        example: Counterexample,
    },
}
