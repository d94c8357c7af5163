ghost use Rattle.std.specs.Prelude.{◌≡◌, ◌≤◌, ◌^◌, ℕ, ◌<◌, Some, None, true, false, not, ◌+◌, count_by, length};
ghost use Rattle.std.specs.Prelude.{slice_index_or, slice_set, vec_len, MatchOption};
ghost use Rattle.std.specs.List.{position_or_len};
ghost use Rattle.key_index.specs.Used.{IsGreatest, least_unused};

use std::marker::Model;

/// Which of the indices of a key are used. A contract sees a `bool` for each index.
#[derive(Drop)]
pub struct Indices {
    used: Vec<bool>,
    /// The least index that is not used, or the number of indices. It never goes back.
    next: usize,
    /// How many indices are not used.
    left: u32,
}

impl Model for Indices {
    ghost use Rattle.std.specs.Prelude.{◌≡◌, ◌≤◌, ◌^◌, Bool, List, length, not, count_by};
    ghost use Rattle.std.specs.List.{position_or_len};
    ghost use Rattle.key_index.specs.Kept.{AreIndices};

    ghost Value = { List Bool };

    ghost view = { λ indices. indices.used.items };

    ghost invariant = { λ indices. AreIndices indices.used.items indices.next indices.left };
}

impl Indices {
    /// The indices that these are, at most 32,768.
    pub fn new(used: Vec<bool>) -> Indices
        requires { vec_len used ≤ 2 ^ 15 }
        ensures { result ≡ used.items }
    {
        let next = next_unused(&used, 0);
        let left = used.iter().filter(|is_used| !**is_used).count() as u32;
        Indices { used, next, left }
    }

    /// How many are not used. It takes constant time.
    pub fn left(&self) -> u32
        ensures { result ≡ count_by not self.now }
    {
        self.left
    }

    /// The least index that is not used.
    pub fn least(&self) -> Option<u32>
        ensures { result ≡ least_unused self.now }
    {
        let index = self.next;
        if index == self.used.len() {
            return None;
        }
        Some(index as u32)
    }

    /// The greatest index that is used.
    pub fn greatest(&self) -> Option<u32>
        ensures { IsGreatest self.now result }
    {
        let count = used_front(&self.used);
        if count == 0 {
            None
        } else {
            Some((count - 1) as u32)
        }
    }

    /// The least index that is not used. It is used from then on.
    pub fn take_least(&mut self) -> Option<u32>
        ensures least { result ≡ least_unused self.old }
        ensures used { MatchOption result (self.new ≡ self.old) (λ index. self.new ≡ slice_set self.old index true) }
    {
        let index = self.next;
        if index == self.used.len() {
            return None;
        }
        self.used[index] = true;
        self.next = next_unused(&self.used, index + 1);
        self.left -= 1;
        Some(index as u32)
    }
}

/// How many indices there are up to the last one that is used.
fn used_front(used: &[bool]) -> usize
    ensures within { result ≤ length used.now }
    ensures above { (index : ℕ) → result ≤ index → slice_index_or used.now index false ≡ false }
    ensures last { (index : ℕ) → result ≡ index + 1 → slice_index_or used.now index false ≡ true }
{
    let mut count = used.len();
    while count > 0 && !used[count - 1] {
        count -= 1;
    }
    count
}

/// The least index that is not used, or the number of indices. It is not below `from`.
fn next_unused(used: &[bool], from: usize) -> usize
    requires within { from ≤ length used.now }
    requires below { (index : ℕ) → index < from → slice_index_or used.now index true ≡ true }
    ensures { result ≡ position_or_len not used.now }
{
    let mut next = from;
    while next < used.len() && used[next] {
        next += 1;
    }
    next
}
