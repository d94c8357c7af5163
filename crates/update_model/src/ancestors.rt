ghost use Rattle.std.specs.Prelude.{◌≡◌, ℕ, Bool, IfOk};

use std::alloc::{AllocError, Global};

/// The ancestors in a graph of updates, however it is kept. Members are named by their positions, from 0.
pub trait Ancestors {
    // whether the member at the first position is a proper ancestor of the one at the second
    ghost ancestor: { Self → ℕ → ℕ → Bool };

    /// Whether the member at position `a` is a proper ancestor of the one at position `b`: whether predecessors
    /// lead from `b` to it. It gives up where memory runs out.
    fn is_ancestor(&self, alloc: Global, a: u32, b: u32) -> Result<bool, AllocError>
        ensures { IfOk result (λ answer. answer ≡ ancestor self.now a b) };
}
