//! Lists of heads that are empty.

ghost use Rattle.std.specs.Prelude.{◌≡◌, [], IfOk, replicate};

use std::alloc::{AllocError, Global};
use update_model::IdList;

/// No heads, so many times.
pub(crate) fn no_heads(alloc: Global, count: usize) -> Result<Vec<IdList>, AllocError>
    ensures { IfOk result (λ none. none.items ≡ replicate count []) }
{
    let mut none = Vec::with_capacity(alloc, count)?;
    for _ in 0..count {
        none.push(IdList::from_vec(Vec::new(alloc)))?;
    }
    Ok(none)
}
