//! Laws of the definitions. Each function does nothing: its contract is a theorem for callers to cite.

ghost use Rattle.std.specs.Prelude.{◌≡◌, ◌≢◌, List, [], Contains, ◌⊎◌};
ghost use Rattle.update_model.specs.declared.update_id.UpdateId.{UpdateId};
ghost use Rattle.update_model.specs.Entry.{Entry};
ghost use Rattle.update_model.specs.Graph.{IsClosed, AreHeads, IsHead, IsAncestor, HaveSameMembers};

/// Heads are a function of the set of members: in whatever order these arrived, the heads are the same list.
pub fn heads_of_same_set()
    ensures { (graph other : List Entry) (heads others : List UpdateId)
        → HaveSameMembers graph other → AreHeads graph heads → AreHeads other others → heads ≡ others }
{}

/// Every member of a closed list is a head, or an ancestor of one.
pub fn heads_cover_members()
    ensures { (graph : List Entry) (e : Entry) → IsClosed graph → Contains graph e
        → (head : Entry) × Contains graph head × IsHead graph head × ((head ≡ e) ⊎ IsAncestor graph e head) }
{}

/// A closed list that is not empty has a head.
pub fn nonempty_has_head()
    ensures { (graph : List Entry) → IsClosed graph → graph ≢ [] → (head : Entry) × Contains graph head
        × IsHead graph head }
{}
