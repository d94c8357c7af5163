//! What keys are made and opened with.

use std::alloc::Global;

/// What keys are made and opened with: whoever computes their leaves, and where their memory comes from.
#[derive(Drop)]
pub struct KeyMaker<'a, G> {
    /// Whoever computes the leaves.
    pub generator: &'a G,
    /// Where the memory comes from.
    pub alloc: Global,
}
