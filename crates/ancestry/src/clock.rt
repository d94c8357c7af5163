//! The clock of a member: its chain, and how many members of each chain are its proper ancestors.

ghost use Rattle.std.specs.Prelude.{◌≡◌, ◌<◌, ◌≤◌, ◌++◌, ◌∷◌, [], ℕ, All, length, slice_index_or, take};
ghost use Rattle.update_model.specs.declared.limits.TheConstants.{MAX_MEMBERS};
ghost use Rattle.ancestry.specs.Chains.{chains, ends_chain, next_chain};
ghost use Rattle.ancestry.specs.Clocked.{AreClocked, AreCounts, AreSizes, raised, with_own};
ghost use Rattle.ancestry.specs.Walks.{AreLower};

use update_model::PositionList;

/// How many chains there are at most; this number stands for no chain.
pub(crate) const CHAINS: usize = 64;

/// The chain of a member and its counts. Contracts inside of the crate name it; callers see counts alone, by
/// [`Ancestry::clock`](crate::Ancestry::clock).
#[derive(Clone, Copy)]
pub struct Clock {
    /// Its chain, or [`CHAINS`] where it is in none.
    pub(crate) chain: u32,
    /// For each chain, how many of its members are its proper ancestors.
    pub(crate) counts: [u32; CHAINS],
}

/// Raises these counts to what a predecessor with this clock brings: its own counts and itself.
fn raise(counts: &mut [u32; CHAINS], clock: &Clock)
    requires { (c : ℕ) → c < 64 → slice_index_or clock.now.counts c 0 ≤ MAX_MEMBERS }
    ensures { (c : ℕ) → c < 64 → slice_index_or counts.new c 0
        ≡ raised (slice_index_or counts.old c 0) (with_own clock.now.chain c (slice_index_or clock.now.counts c 0)) }
{
    for c in 0..CHAINS {
        let mut count = clock.counts[c];
        if clock.chain as usize == c {
            count += 1;
        }
        if counts[c] < count {
            counts[c] = count;
        }
    }
}

/// The counts of the next member, which names these predecessors.
pub(crate) fn merged(members: &[PositionList], clocks: &[Clock], preds: &[u32]) -> [u32; CHAINS]
    requires lower { AreLower members.now }
    requires few { length members.now ≤ MAX_MEMBERS }
    requires clocked { AreClocked members.now clocks.now }
    requires earlier { All (λ p. p < length members.now) preds.now }
    ensures { AreCounts (members.now ++ preds.now ∷ []) (length members.now) result }
{
    prove!(members.len() == clocks.len());
    let mut counts = [0; CHAINS];
    for position in preds {
        raise(&mut counts, &clocks[*position as usize]);
    }
    counts
}

/// Whether the member at `p` is in a chain and the last of it.
fn ends(members: &[PositionList], clocks: &[Clock], sizes: &[u32; CHAINS], p: usize) -> bool
    requires lower { AreLower members.now }
    requires few { length members.now ≤ MAX_MEMBERS }
    requires clocked { AreClocked members.now clocks.now }
    requires sized { AreSizes members.now sizes.now }
    requires held { p < length members.now }
    ensures { result ≡ ends_chain (chains members.now (length members.now)) p }
{
    prove!(members.len() == clocks.len());
    let clock = &clocks[p];
    let chain = clock.chain as usize;
    chain < CHAINS && clock.counts[chain] + 1 == sizes[chain]
}

/// The chain that the next member joins, which names these predecessors.
pub(crate) fn join(
    members: &[PositionList],
    clocks: &[Clock],
    sizes: &[u32; CHAINS],
    preds: &[u32],
) -> u32
    requires lower { AreLower members.now }
    requires few { length members.now ≤ MAX_MEMBERS }
    requires clocked { AreClocked members.now clocks.now }
    requires sized { AreSizes members.now sizes.now }
    requires earlier { All (λ p. p < length members.now) preds.now }
    ensures { result ≡ next_chain (chains members.now (length members.now)) preds.now }
{
    let mut least = members.len();
    for position in preds {
        let p = *position as usize;
        if p < least && ends(members, clocks, sizes, p) {
            least = p;
        }
    }
    if least < members.len() {
        return clocks[least].chain;
    }
    for c in 0..CHAINS {
        if sizes[c] == 0 {
            return c as u32;
        }
    }
    CHAINS as u32
}

/// Takes the next member, which names these predecessors and joins this chain, into the sizes of the chains.
pub(crate) fn count(members: &[PositionList], sizes: &mut [u32; CHAINS], preds: &[u32], chain: u32)
    requires few { length members.now ≤ MAX_MEMBERS }
    requires sized { AreSizes members.now sizes.old }
    requires joined { chain ≡ next_chain (chains members.now (length members.now)) preds.now }
    ensures { AreSizes (members.now ++ preds.now ∷ []) sizes.new }
{
    if (chain as usize) < CHAINS {
        sizes[chain as usize] += 1;
    }
}

/// Takes the members from `len` on out of the sizes of their chains.
pub(crate) fn uncount(
    members: &[PositionList],
    clocks: &[Clock],
    sizes: &mut [u32; CHAINS],
    len: usize,
)
    requires lower { AreLower members.now }
    requires clocked { AreClocked members.now clocks.now }
    requires sized { AreSizes members.now sizes.old }
    requires held { len ≤ length members.now }
    ensures { AreSizes (take len members.now) sizes.new }
{
    prove!(members.len() == clocks.len());
    for position in (len..members.len()).rev() {
        let chain = clocks[position].chain as usize;
        if chain < CHAINS {
            sizes[chain] -= 1;
        }
    }
}
