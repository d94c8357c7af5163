//! The walk from a member down to its ancestors.

ghost use Rattle.std.specs.Prelude.{◌≡◌, ◌<◌, ◌≤◌, ◌+◌, ◌||◌, ◌==◌, ◌↔◌, ℕ, All, length, slice_index_or, false, IsTrue};
ghost use Rattle.std.specs.Prelude.{IfOk};
ghost use Rattle.std.specs.List.{list_any};
ghost use Rattle.ancestry.specs.Since.{is_behind};
ghost use Rattle.ancestry.specs.Walks.{AreLower, is_ancestor};

use std::alloc::{AllocError, Global};
use update_model::PositionList;

/// Whether predecessors lead from the member at `b` to the one at `a`, which stands below it.
///
/// Predecessors stand below the member that names them. So one sweep from `b` down, which marks what each marked
/// member names, comes to every member only after all that name it, and none has to be looked at twice. Nothing
/// below `a` leads to it, and the sweep does not look there. It ends where nothing is marked below.
pub(crate) fn reaches(
    alloc: Global,
    members: &[PositionList],
    a: usize,
    b: usize,
) -> Result<bool, AllocError>
    requires lower { AreLower members.now }
    requires below { a < b }
    requires held { b < length members.now }
    ensures { IfOk result (λ answer. answer ≡ is_ancestor members.now a b) }
{
    let mut marks = vec![in alloc; false; b - a + 1]?;
    marks[b - a] = true;
    let mut low = b - a;
    for offset in (1..b - a + 1).rev() {
        if offset < low {
            return Ok(false);
        }
        if marks[offset] {
            let preds = members[a + offset].as_slice();
            low = lowest(low, a, preds);
            mark_all(&mut marks, a, preds);
        }
    }
    Ok(marks[0])
}

/// The least of a mark's place and of those of these positions that are not below the first, which has the first mark.
fn lowest(mut low: usize, first: usize, positions: &[u32]) -> usize
    ensures least { result ≤ low }
    ensures below { (k : ℕ) → k < result → list_any (λ p. p == first + k) positions.now ≡ false }
{
    for position in positions {
        low = lower(low, first, *position);
    }
    low
}

/// The same of one position.
fn lower(low: usize, first: usize, position: u32) -> usize
    ensures least { result ≤ low }
    ensures below { (k : ℕ) → k < result → (position == first + k) ≡ false }
{
    let position = position as usize;
    if first <= position && position - first < low {
        position - first
    } else {
        low
    }
}

/// Whether each of these positions is below the first.
pub(crate) fn are_below(positions: &[u32], first: usize) -> bool
    ensures { IsTrue result ↔ All (λ p. p < first) positions.now }
{
    positions
        .iter()
        .all(|position| (*position as usize) < first)
}

/// Marks the members that are among these positions or ancestors of one of them, in one sweep.
pub(crate) fn behind(
    alloc: Global,
    members: &[PositionList],
    old: &[u32],
) -> Result<Vec<bool>, AllocError>
    requires lower { AreLower members.now }
    requires held { All (λ q. q < length members.now) old.now }
    ensures long { IfOk result (λ marks. length marks.items ≡ length members.now) }
    ensures are { IfOk result (λ marks. (k : ℕ) → k < length members.now
        → slice_index_or marks.items k false ≡ is_behind members.now old.now k) }
{
    let mut marks = vec![in alloc; false; members.len()]?;
    mark_all(&mut marks, 0, old);
    for position in (0..members.len()).rev() {
        if marks[position] {
            mark_all(&mut marks, 0, members[position].as_slice());
        }
    }
    Ok(marks)
}

/// Marks each of these positions that is not below the first, which has the first mark.
fn mark_all(marks: &mut [bool], first: usize, positions: &[u32])
    requires { All (λ p. p < first + length marks.old) positions.now }
    ensures { (k : ℕ) → k < length marks.old
        → slice_index_or marks.new k false ≡ (slice_index_or marks.old k false || list_any (λ p. p == first + k)
        positions.now) }
{
    for position in positions {
        let position = *position as usize;
        if first <= position {
            marks[position - first] = true;
        }
    }
}
