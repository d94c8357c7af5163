//! Laws of heads. Each function does nothing: its contract is a theorem for callers to cite.

ghost use Rattle.std.specs.Prelude.{◌≡◌, ◌≤◌, ℕ, List, [], false, length, take};
ghost use Rattle.std.specs.List.{list_any};
ghost use Rattle.update_model.specs.declared.update_id.UpdateId.{UpdateId};
ghost use Rattle.update_model.specs.Entry.{Entry};
ghost use Rattle.update_model.specs.Graph.{IsClosed, IsNext, AreHeads, HaveSameMembers, has};
ghost use Rattle.head_set.specs.Grown.{AreHeadsOfEach, NoCollision};
ghost use Rattle.head_set.specs.Present.{present};

/// A member that may stand next was never a head, as [`Heads::add`](crate::Heads::add) asks.
pub fn new_ids_were_no_heads()
    ensures { (graph : List Entry) (states : List (List UpdateId)) (e : Entry) → AreHeadsOfEach graph states
        → IsNext graph e
        → list_any (λ heads. has heads e.id) states ≡ false }
{}

/// The heads of the moment are those of the whole graph.
pub fn present_heads_are_heads()
    ensures { (graph : List Entry) (states : List (List UpdateId)) → AreHeadsOfEach graph states
        → AreHeads graph (present states) }
{}

/// After a cut the heads are those of the members that are left.
pub fn heads_of_a_front()
    ensures { (graph : List Entry) (states : List (List UpdateId)) (len : ℕ) → AreHeadsOfEach graph states
        → len ≤ length graph
        → AreHeadsOfEach (take len graph) (take len states) }
{}

/// A graph has no more heads than members.
pub fn heads_are_few()
    ensures { (graph : List Entry) (heads : List UpdateId) → AreHeads graph heads → length heads ≤ length graph }
{}

/// Two closed graphs with the same heads have the same members, unless two of their members collide: an id that is
/// a digest names one update, and its predecessors' ids in it, so equal heads vouch for all that lies below them.
pub fn equal_heads_mean_equal_sets()
    ensures { (graph other : List Entry) (heads : List UpdateId) → IsClosed graph → IsClosed other
        → NoCollision graph other
        → AreHeads graph heads → AreHeads other heads → HaveSameMembers graph other }
{}

/// A graph with no member has no head, as [`Heads::new`](crate::Heads::new) says.
pub fn no_members_no_heads()
    ensures { AreHeads [] [] }
{}

/// Before the first add no heads are those of any member.
pub fn heads_begin()
    ensures { AreHeadsOfEach [] [] }
{}

/// A closed graph with no head has no member.
pub fn no_heads_no_members()
    ensures { (graph : List Entry) → IsClosed graph → AreHeads graph [] → graph ≡ [] }
{}
