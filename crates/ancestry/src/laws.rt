//! Laws of ancestors. Each function does nothing: its contract is a theorem for callers to cite.

ghost use Rattle.std.specs.Prelude.{◌≡◌, ◌<◌, ◌↔◌, ◌||◌, ◌==◌, ◌++◌, ◌∷◌, [], ℕ, All, List, Some, IsTrue, length};
ghost use Rattle.std.specs.Prelude.{slice_get, take};
ghost use Rattle.std.specs.List.{list_any};
ghost use Rattle.update_model.specs.declared.update_id.UpdateId.{UpdateId};
ghost use Rattle.update_model.specs.Entry.{Entry};
ghost use Rattle.update_model.specs.Graph.{IsClosed, IsAncestor};
ghost use Rattle.ancestry.specs.Numbered.{AreNumbered, ArePlaces};
ghost use Rattle.ancestry.specs.Walks.{AreLower, is_ancestor, preds_at};

/// A member is an ancestor of another exactly where that one names it, or names one whose ancestor it is.
pub fn ancestors_go_by_predecessors()
    ensures { (graph : List (List ℕ)) (a b : ℕ) → AreLower graph
        → is_ancestor graph a b ≡ list_any (λ p. (p == a) || is_ancestor graph a p) (preds_at graph b) }
{}

/// Later members change nothing about the ancestors of earlier ones.
pub fn ancestors_stay()
    ensures { (graph more : List (List ℕ)) (a b : ℕ) → b < length graph → AreLower (graph ++ more)
        → is_ancestor (graph ++ more) a b ≡ is_ancestor graph a b }
{}

/// Of a closed graph, ancestors by positions are the ancestors of its members.
pub fn walks_are_ancestors()
    ensures { (graph : List Entry) (positions : List (List ℕ)) (a b : ℕ) (x y : Entry) → IsClosed graph
        → AreNumbered graph positions
        → slice_get graph a ≡ Some x → slice_get graph b ≡ Some y → IsTrue (is_ancestor positions a b)
        ↔ IsAncestor graph x y }
{}

/// Positions of members are below the number of members, as [`Ancestry::add`](crate::Ancestry::add) asks.
pub fn places_are_held()
    ensures { (graph : List Entry) (ids : List UpdateId) (places : List ℕ) → ArePlaces graph ids places
        → All (λ p. p < length graph) places }
{}

/// A graph and positions that are numbered alike stay so with one more member and the places of its predecessors.
pub fn numbers_grow()
    ensures { (graph : List Entry) (positions : List (List ℕ)) (e : Entry) (places : List ℕ)
        → AreNumbered graph positions
        → ArePlaces graph e.preds places → AreNumbered (graph ++ e ∷ []) (positions ++ places ∷ []) }
{}

/// The members in front are numbered alike too, as after a cut.
pub fn numbers_of_a_front()
    ensures { (graph more : List Entry) (positions : List (List ℕ)) → IsClosed graph
        → AreNumbered (graph ++ more) positions
        → AreNumbered graph (take (length graph) positions) }
{}
