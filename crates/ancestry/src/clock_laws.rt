//! Laws of chains and clocks. Each function does nothing: its contract is a theorem for callers to cite.

ghost use Rattle.std.specs.Prelude.{◌≡◌, ◌<◌, ◌↔◌, ℕ, List, IsTrue};
ghost use Rattle.ancestry.specs.Chains.{chain_of, clock_of, members_below};
ghost use Rattle.ancestry.specs.Walks.{AreLower, is_ancestor};

/// Of two members of one chain the earlier one is an ancestor of the later one.
pub fn chains_are_ancestors()
    ensures { (graph : List (List ℕ)) (a b : ℕ) → AreLower graph → a < b → chain_of graph b < 64
        → chain_of graph a ≡ chain_of graph b → IsTrue (is_ancestor graph a b) }
{}

/// A member of a chain is an ancestor of exactly those members whose clocks count more of its chain than stand before
/// it.
pub fn clocks_tell_ancestors()
    ensures { (graph : List (List ℕ)) (a b : ℕ) → AreLower graph → chain_of graph a < 64
        → IsTrue (is_ancestor graph a b)
        ↔ (members_below graph a (chain_of graph a) < clock_of graph b (chain_of graph a)) }
{}
