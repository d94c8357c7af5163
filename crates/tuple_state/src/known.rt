//! What is known of rows after the ancestors of an update, counted once for all that is asked.

ghost use Rattle.std.specs.Prelude.{◌≡◌, ℕ, ◌<◌, ◌≤◌, ◌==◌, ◌&&◌, ◌^◌, IfOk, [], length, slice_index_or};
ghost use Rattle.tuple_state.specs.Known.{count_to};

use crate::causes::clear;
use std::alloc::{AllocError, Global};

/// What is known of rows, where a table keeps the least row of each value, and else nothing.
#[derive(Drop)]
pub(crate) struct Known {
    /// Of each row a number that is 0 where it is visible.
    pub(crate) causes: Vec<u32>,
    /// Of the first row of each group how many rows of it are visible.
    pub(crate) shown: Vec<u32>,
}

impl Known {
    /// Nothing.
    pub(crate) fn nothing(alloc: Global) -> Known {
        Known {
            causes: Vec::new(alloc),
            shown: Vec::new(alloc),
        }
    }
}

/// Of each place the number of those whose group it is and whose count of causes is 0.
pub(crate) fn count_shown(
    alloc: Global,
    causes: &[u32],
    groups: &[usize],
) -> Result<Vec<u32>, AllocError>
    requires each { length causes.now ≡ length groups.now }
    requires inside { (k : ℕ) → k < length groups.now → slice_index_or groups.now k 0 ≤ k }
    requires few { length groups.now < 2 ^ 32 }
    ensures each { IfOk result (λ shown. length shown.items ≡ length groups.now) }
    ensures counts { IfOk result (λ shown. (group : ℕ) → slice_index_or shown.items group 0
        ≡ count_to (λ k. (slice_index_or causes.now k 0 == 0) && (slice_index_or groups.now k 0 == group))
        (length groups.now)) }
{
    let mut shown = Vec::new(alloc);
    shown.resize(groups.len(), 0)?;
    add_shown(shown.as_mut_slice(), causes, groups);
    Ok(shown)
}

/// Counts them anew.
fn add_shown(shown: &mut [u32], causes: &[u32], groups: &[usize])
    requires room { length shown.old ≡ length groups.now }
    requires each { length causes.now ≡ length groups.now }
    requires inside { (k : ℕ) → k < length groups.now → slice_index_or groups.now k 0 ≤ k }
    requires few { length groups.now < 2 ^ 32 }
    ensures { (group : ℕ) → slice_index_or shown.new group 0 ≡ count_to (λ k. (slice_index_or causes.now k 0 == 0)
        && (slice_index_or groups.now k 0 == group)) (length groups.now) }
{
    clear(shown);
    for place in 0..groups.len() {
        if causes[place] == 0 {
            shown[groups[place]] += 1;
        }
    }
}
