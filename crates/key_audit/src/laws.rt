//! Laws of audits. Each function does nothing: its contract is a theorem for callers to cite.

ghost use Rattle.std.specs.Prelude.{◌≡◌, ◌↔◌, ℕ, List, Contains, map};
ghost use Rattle.update_model.specs.Graph.{IsClosed};
ghost use Rattle.update_codec.specs.Parts.{entry_of};
ghost use Rattle.key_audit.specs.Entries.{AreFound};
ghost use Rattle.key_audit.specs.declared.doubled.Doubled.{Doubled as Entry};

/// A closed list has one list of entries.
pub fn found_once()
    ensures { (members : List (List ℕ)) (doubles others : List Entry)
        → IsClosed (map entry_of members) → AreFound members doubles → AreFound members others → doubles ≡ others }
{}

/// Lists of the same updates, in whatever order each came, have the same entries.
pub fn found_of_the_set()
    ensures { (members others : List (List ℕ)) (doubles : List Entry)
        → ((update : List ℕ) → Contains members update ↔ Contains others update)
        → AreFound members doubles → AreFound others doubles }
{}
