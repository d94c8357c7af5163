//! How many causes each row has to be absent, kept as they come.

ghost use Rattle.std.specs.Prelude.{◌≡◌, ◌+◌, ◌<◌, ◌≤◌, ◌^◌, ◌⊎◌, ◌++◌, ℕ, List, [], true, IfOk, count_by, length};
ghost use Rattle.std.specs.Prelude.{slice_index_or, vec_len};
ghost use Rattle.std.specs.Vec.{vec_capacity};
ghost use Rattle.tuple_state.specs.declared.links.Link.{Link as Pair};
ghost use Rattle.tuple_state.specs.Causes.{AreRising, Raised, absent_times, are_below, one_at, pending_times, standing};
ghost use Rattle.tuple_state.specs.Causes.{times_in, times_of};
ghost use Rattle.tuple_state.specs.Links.{are_inside, is_of};

use crate::deleters::Added;
use crate::links::{Link, Links};
use std::alloc::{AllocError, Global};

/// Adds one to the count of a place. A place whose count was 0 is pending from then on.
fn raise(causes: &mut [u32], pending: &mut Vec<usize>, place: usize)
    requires inside { place < length causes.old }
    requires few { slice_index_or causes.old place 0 + 1 < 2 ^ 32 }
    requires room { standing causes.old + vec_len pending.old ≤ vec_capacity pending.old }
    ensures raised { (links : List Pair) → Raised links (one_at place) causes.old pending.old.items causes.new
        pending.new.items }
    ensures room { vec_capacity pending.old ≤ vec_capacity pending.new }
{
    if causes[place] == 0 {
        pending.push(place).unwrap();
    }
    causes[place] += 1;
}

/// Adds one to the count of each row that names the row at a place, for each time that it does.
fn raise_children(causes: &mut [u32], pending: &mut Vec<usize>, children: &Links, place: usize)
    requires inside { place < children.now.size }
    requires rising { AreRising 0 (length causes.old) children.now.links }
    requires few { (k : ℕ) → slice_index_or causes.old k 0 + times_in children.now.links k < 2 ^ 32 }
    requires room { standing causes.old + vec_len pending.old ≤ vec_capacity pending.old }
    ensures raised { Raised children.now.links (times_of children.now.links place) causes.old pending.old.items
        causes.new pending.new.items }
    ensures room { vec_capacity pending.old ≤ vec_capacity pending.new }
{
    let mut next = children.newest(place);
    while let Some(index) = next {
        next = children.older(index);
        raise(causes, pending, children.number(index) as usize);
    }
}

/// Adds the causes that come of pending places, and of those that become absent for it, until none is pending.
pub(crate) fn spread(causes: &mut [u32], pending: &mut Vec<usize>, children: &Links)
    requires each { children.now.size ≡ length causes.old }
    requires rising { AreRising 0 (length causes.old) children.now.links }
    requires inside { are_below (length causes.old) pending.old.items ≡ true }
    requires few { (k : ℕ) → slice_index_or causes.old k 0 + pending_times children.now.links pending.old.items
        k + times_in children.now.links k + times_in children.now.links k < 2 ^ 32 }
    requires room { standing causes.old + vec_len pending.old ≤ vec_capacity pending.old }
    ensures { (k : ℕ) → slice_index_or causes.new k 0 + absent_times children.now.links causes.old k
        ≡ slice_index_or causes.old k 0 + pending_times children.now.links pending.old.items k + absent_times
        children.now.links causes.new k }
{
    while let Some(place) = pending.pop() {
        raise_children(causes, pending, children, place);
    }
}

/// Adds one to the count of the place of each link.
pub(crate) fn raise_all(causes: &mut [u32], pending: &mut Vec<usize>, links: &[Link])
    requires inside { are_inside (length causes.old) links.now ≡ true }
    requires few { (k : ℕ) → slice_index_or causes.old k 0 + count_by (is_of k) links.now < 2 ^ 32 }
    requires room { standing causes.old + vec_len pending.old ≤ vec_capacity pending.old }
    ensures raised { (all : List Pair) → Raised all (λ k. count_by (is_of k) links.now) causes.old pending.old.items
        causes.new pending.new.items }
    ensures room { vec_capacity pending.old ≤ vec_capacity pending.new }
{
    for link in links {
        raise(causes, pending, link.place);
    }
}

/// Adds one to the count of the place of each link.
pub(crate) fn count_places(causes: &mut [u32], links: &[Link])
    requires inside { are_inside (length causes.old) links.now ≡ true }
    requires few { (k : ℕ) → slice_index_or causes.old k 0 + count_by (is_of k) links.now < 2 ^ 32 }
    ensures { (k : ℕ) → slice_index_or causes.new k 0 ≡ slice_index_or causes.old k 0 + count_by (is_of k) links.now }
{
    for link in links {
        causes[link.place] += 1;
    }
}

/// Adds one to the count of each link's number where its place is absent. Numbers rise, and each is behind its place.
pub(crate) fn count_numbers(causes: &mut [u32], links: &[Link])
    requires rising { AreRising 0 (length causes.old) links.now }
    requires few { (k : ℕ) → slice_index_or causes.old k 0 + times_in links.now k < 2 ^ 32 }
    ensures { (k : ℕ) → slice_index_or causes.new k 0 ≡ slice_index_or causes.old k 0 + absent_times links.now
        causes.new k }
{
    for link in links {
        if causes[link.place] != 0 {
            causes[link.number as usize] += 1;
        }
    }
}

/// Sets each count to 0.
pub(crate) fn clear(causes: &mut [u32])
    ensures { (k : ℕ) → slice_index_or causes.new k 0 ≡ 0 }
{
    for count in causes.iter_mut() {
        *count = 0;
    }
}

/// Adds the causes that come of new links: counts of the rows behind the known ones, whose counts are 0 before, and
/// what deletions make absent.
pub(crate) fn add_causes(
    causes: &mut [u32],
    pending: &mut Vec<usize>,
    children: &Links,
    added: &Added,
)
    requires each { children.now.size ≡ length causes.old }
    requires rising { AreRising 0 (length causes.old) children.now.links }
    requires parents { AreRising 0 (length causes.old) added.now.parents.items }
    requires dropped { are_inside (length causes.old) added.now.dropped.items ≡ true }
    requires idle { pending.old.items ≡ [] }
    requires room { (added.now.dropped.items ≡ []) ⊎ (length causes.old ≤ vec_capacity pending.old) }
    requires few { (k : ℕ) → slice_index_or causes.old k 0 + times_in added.now.parents.items k + count_by (is_of k)
        added.now.dropped.items
        + times_in children.now.links k + times_in children.now.links k + times_in children.now.links k < 2 ^ 32 }
    ensures { (known : ℕ) (old deleted : List Pair) → children.now.links ≡ old ++ added.now.parents.items
        → AreRising known (length causes.old) added.now.parents.items
        → are_inside known old ≡ true
        → ((k : ℕ) → slice_index_or causes.old k 0 ≡ count_by (is_of k) deleted + absent_times old causes.old k)
        → (k : ℕ) → slice_index_or causes.new k 0 ≡ count_by (is_of k) (deleted ++ added.now.dropped.items)
        + absent_times children.now.links causes.new k }
{
    count_numbers(causes, added.parents.as_slice());
    if !added.dropped.is_empty() {
        raise_all(causes, pending, added.dropped.as_slice());
        spread(causes, pending, children);
    }
}

/// A list with room for what may be pending after so many deletions among so many rows.
pub(crate) fn room_for(
    alloc: Global,
    deletions: usize,
    rows: usize,
) -> Result<Vec<usize>, AllocError>
    ensures empty { IfOk result (λ list. list.items ≡ []) }
    ensures room { IfOk result (λ list. (deletions ≡ 0) ⊎ (rows ≤ vec_capacity list)) }
{
    Vec::with_capacity(alloc, if deletions == 0 { 0 } else { rows })
}
