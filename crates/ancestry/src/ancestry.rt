ghost use Rattle.std.specs.Prelude.{◌≡◌, ◌<◌, ◌≤◌, ◌==◌, ◌||◌, ◌↔◌, ◌++◌, ◌∷◌, [], ℕ, All, true, false, length};
ghost use Rattle.std.specs.Prelude.{slice_index_or, take, IsTrue, IfOk, IfSome, IfNone, OnOk, OnErr};
ghost use Rattle.std.specs.List.{list_any};
ghost use Rattle.ancestry.specs.Chains.{chain_of, clock_of};
ghost use Rattle.ancestry.specs.Named.{names};
ghost use Rattle.ancestry.specs.Since.{is_behind, since};
ghost use Rattle.ancestry.specs.Walks.{AreLower, is_ancestor};

use crate::clock::{CHAINS, Clock, count, join, merged, uncount};
use crate::namers::{Namers, forget, note, unname};
use crate::walk::{are_below, behind, reaches};
use std::alloc::{AllocError, Global};
use std::collections::BTreeSet;
use std::marker::Model;
use update_model::{Ancestors, MAX_MEMBERS, PositionList};

/// After so many looks at who names a member the way up is given up: a sweep down is then cheaper.
const MAX_LOOKS: usize = 512;

/// The predecessors and the clock of each member of a graph. A contract sees, for each member in arrival order, the
/// list of the positions that it names.
#[derive(Drop)]
pub struct Ancestry {
    /// In arrival order, the positions of each member's direct predecessors.
    members: Vec<PositionList>,
    /// In arrival order, the clock of each member.
    clocks: Vec<Clock>,
    /// In arrival order, who names each member.
    namers: Vec<Namers>,
    /// For each chain, how many members it has.
    sizes: [u32; CHAINS],
}

impl Model for Ancestry {
    ghost use Rattle.std.specs.Prelude.{ℕ, List};
    ghost use Rattle.ancestry.specs.Kept.{IsKept};

    ghost Value = { List (List ℕ) };

    ghost view = { λ ancestry. ancestry.members.items };

    ghost invariant = { λ ancestry. IsKept ancestry.members.items ancestry.clocks.items ancestry.namers.items
        ancestry.sizes };
}

impl Ancestry {
    /// An ancestry with no member. It takes no memory yet.
    pub fn new(alloc: Global) -> Ancestry
        ensures { result ≡ [] }
    {
        Ancestry {
            members: Vec::new(alloc),
            clocks: Vec::new(alloc),
            namers: Vec::new(alloc),
            sizes: [0; CHAINS],
        }
    }

    /// How many members there are, and what holds of every ancestry.
    pub fn len(&self) -> u32
        ensures value { result ≡ length self.now }
        ensures few { length self.now ≤ MAX_MEMBERS }
        ensures lower { AreLower self.now }
    {
        self.members.len() as u32
    }

    /// Whether there is no member.
    pub fn is_empty(&self) -> bool
        ensures { IsTrue result ↔ (length self.now ≡ 0) }
    {
        self.members.is_empty()
    }

    /// Takes a member, whose direct predecessors stand at these positions, and gives its own, which is the last. It
    /// gives up where memory runs out, and then nothing has changed.
    pub fn add(&mut self, preds: &[u32]) -> Result<u32, AllocError>
        requires earlier { All (λ p. p < length self.old) preds.now }
        requires room { length self.old < MAX_MEMBERS }
        ensures position { IfOk result (λ position. position ≡ length self.old) }
        ensures value { OnOk result (self.new ≡ self.old ++ preds.now ∷ []) }
        ensures same { OnErr result (self.new ≡ self.old) }
    {
        let position = self.len();
        let counts = merged(self.members.as_slice(), self.clocks.as_slice(), preds);
        let chain = join(
            self.members.as_slice(),
            self.clocks.as_slice(),
            &self.sizes,
            preds,
        );
        let alloc = *self.members.allocator();
        self.members.reserve(1)?;
        self.clocks.reserve(1)?;
        self.namers.reserve(1)?;
        let own = PositionList::from_vec(Vec::from_slice(alloc, preds)?);
        if let Err(full) = note(self.namers.as_mut_slice(), preds, position) {
            forget(self.namers.as_mut_slice(), preds, position);
            return Err(full);
        }
        count(self.members.as_slice(), &mut self.sizes, preds, chain);
        self.members.push_reserved(own);
        self.clocks.push_reserved(Clock { chain, counts });
        self.namers.push_reserved(Namers::new(alloc));
        Ok(position)
    }

    /// Lends, for each of the 64 chains, how many of its members are proper ancestors of the member at this position.
    /// Chains are numbered from 0 in the order in which they begin. It takes no memory.
    pub fn clock(&self, position: u32) -> &[u32]
        requires { position < length self.now }
        ensures long { length result.now ≡ 64 }
        ensures counts { (c : ℕ) → c < 64 → slice_index_or result.now c 0 ≡ clock_of self.now position c }
    {
        &self.clocks[position as usize].counts
    }

    /// Leaves the first `len` members and their chains. It takes no memory, and time for what goes.
    pub fn cut(&mut self, len: u32)
        requires { len ≤ length self.old }
        ensures { self.new ≡ take len self.old }
    {
        uncount(
            self.members.as_slice(),
            self.clocks.as_slice(),
            &mut self.sizes,
            len as usize,
        );
        unname(self.namers.as_mut_slice(), self.members.as_slice(), len);
        self.namers.truncate(len as usize);
        self.clocks.truncate(len as usize);
        self.members.truncate(len as usize);
    }

    /// The positions below `below`, rising, that are neither in `old` nor those of ancestors of a member of `old`.
    ///
    /// A member in a chain is told by one comparison with the greatest clock over `old`. For the others there is one
    /// sweep, and none where each member is in a chain.
    pub fn since(&self, alloc: Global, below: u32, old: &[u32]) -> Result<Vec<u32>, AllocError>
        requires held { below ≤ length self.now }
        requires earlier { All (λ q. q < length self.now) old.now }
        ensures { IfOk result (λ positions. positions.items ≡ since self.now old.now below) }
    {
        let top = merged(self.members.as_slice(), self.clocks.as_slice(), old);
        let marks = self.marks_of_unchained(alloc, below, old)?;
        let mut positions = Vec::new(alloc);
        for p in 0..below {
            let clock = &self.clocks[p as usize];
            let chain = clock.chain as usize;
            let is_behind = if chain < CHAINS {
                clock.counts[chain] < top[chain]
            } else {
                marks[p as usize]
            };
            if !is_behind {
                positions.push(p)?;
            }
        }
        Ok(positions)
    }

    /// Marks the members that are in `old` or ancestors of one of them. Where each member below `below` is in a chain,
    /// nobody asks, and there are no marks.
    fn marks_of_unchained(
        &self,
        alloc: Global,
        below: u32,
        old: &[u32],
    ) -> Result<Vec<bool>, AllocError>
        requires held { below ≤ length self.now }
        requires earlier { All (λ q. q < length self.now) old.now }
        ensures { IfOk result (λ marks. (p : ℕ) → p < below → 64 ≤ chain_of self.now p
            → (p < length marks.items) × (slice_index_or marks.items p false ≡ is_behind self.now old.now p)) }
    {
        for position in 0..below {
            if self.clocks[position as usize].chain as usize >= CHAINS {
                return behind(alloc, self.members.as_slice(), old);
            }
        }
        Ok(Vec::new(alloc))
    }

    /// An equal ancestry on memory of its own.
    pub fn copy(&self, alloc: Global) -> Result<Ancestry, AllocError>
        ensures { IfOk result (λ ancestry. ancestry ≡ self.now) }
    {
        let mut members = Vec::with_capacity(alloc, self.members.len())?;
        for preds in self.members.as_slice() {
            members.push_reserved(preds.copy(alloc)?);
        }
        let clocks = Vec::from_slice(alloc, self.clocks.as_slice())?;
        let mut namers = Vec::with_capacity(alloc, self.namers.len())?;
        for list in self.namers.as_slice() {
            namers.push_reserved(list.copy(alloc)?);
        }
        Ok(Ancestry {
            members,
            clocks,
            namers,
            sizes: self.sizes,
        })
    }
}

/// The way up from a member to its descendants.
impl Ancestry {
    /// Whether the member at `a` is an ancestor of the one at `b`, which stands above it. The way up from `a` goes over
    /// those that name it, those that name them, and so on, the lowest first. Of a member in a chain its number tells,
    /// and the way ends there. None is gone over twice, since a member stands above those that it names. It gives up,
    /// and tells nothing, where more looks would be needed than [`MAX_LOOKS`].
    fn climbs(&self, alloc: Global, a: u32, b: u32) -> Result<Option<bool>, AllocError>
        requires below { a < b }
        requires held { b < length self.now }
        ensures { IfOk result (λ told. IfSome told (λ answer. answer ≡ is_ancestor self.now a b)) }
    {
        let mut pending = BTreeSet::new(alloc);
        let mut left = MAX_LOOKS;
        let mut next = a;
        for _ in 0..=MAX_LOOKS {
            let namers = self.namers[next as usize].as_slice().len();
            if left < namers {
                return Ok(None);
            }
            left -= namers;
            if self.look(next, b, &mut pending)? {
                return Ok(Some(true));
            }
            match pending.pop_first() {
                Some(member) => next = member,
                None => return Ok(Some(false)),
            }
        }
        Ok(None)
    }

    /// Looks at who names the member at `p`: whether one of them is the one at `b`, or known to be its ancestor. Of
    /// whom nothing is known, it is pending.
    fn look(&self, p: u32, b: u32, pending: &mut BTreeSet<u32>) -> Result<bool, AllocError>
        requires below { p < b }
        requires held { b < length self.now }
        ensures found { IfOk result (λ found. found ≡ true → is_ancestor self.now p b ≡ true) }
        ensures goes_on { IfOk result (λ found. found ≡ false
            → list_any (λ k. is_ancestor self.now k b) pending.new.keys
            ≡ (list_any (λ k. is_ancestor self.now k b) pending.old.keys || is_ancestor self.now p b)) }
        ensures lower { IfOk result (λ found. All (λ k. k < b) pending.old.keys → All (λ k. k < b) pending.new.keys) }
    {
        for namer in self.namers[p as usize].as_slice() {
            let s = *namer;
            if s <= b && self.names(s, p) {
                match self.leads(s, b) {
                    Some(true) => return Ok(true),
                    Some(false) => {}
                    None => {
                        pending.insert(s)?;
                    }
                }
            }
        }
        Ok(false)
    }

    /// Whether the member at `q` names the one at `p`.
    fn names(&self, q: u32, p: u32) -> bool
        requires { q < length self.now }
        ensures { result ≡ names self.now q p }
    {
        self.members[q as usize].as_slice().contains(&p)
    }

    /// Whether the member at `s` is the one at `b` or its ancestor, where no way has to be gone for that.
    fn leads(&self, s: u32, b: u32) -> Option<bool>
        requires below { s ≤ b }
        requires held { b < length self.now }
        ensures told { IfSome result (λ answer. answer ≡ ((s == b) || is_ancestor self.now s b)) }
        ensures apart { IfNone result (s < b) }
    {
        if s == b {
            return Some(true);
        }
        let clock = &self.clocks[s as usize];
        let chain = clock.chain as usize;
        if chain < CHAINS {
            Some(clock.counts[chain] < self.clocks[b as usize].counts[chain])
        } else {
            None
        }
    }
}

impl Ancestors for Ancestry {
    ghost ancestor = { is_ancestor };

    /// Positions that no member has are nobody's ancestors, and have none. For an `a` in a chain it takes constant time
    /// and no memory. For one in no chain it goes up over the descendants of `a` that are in no chain, and where these
    /// are many, it sweeps what lies between the two.
    fn is_ancestor(&self, alloc: Global, a: u32, b: u32) -> Result<bool, AllocError> {
        let len = self.len();
        if b <= a || len <= b {
            return Ok(false);
        }
        if let Some(answer) = self.leads(a, b) {
            return Ok(answer);
        }
        if are_below(self.members[b as usize].as_slice(), a as usize) {
            return Ok(false);
        }
        match self.climbs(alloc, a, b)? {
            Some(answer) => Ok(answer),
            None => reaches(alloc, self.members.as_slice(), a as usize, b as usize),
        }
    }
}
