//! Laws of what bytes stand for. Each function does nothing: its contract is a theorem for callers to cite.

ghost use Rattle.std.specs.Prelude.{◌≡◌, ℕ, ◌++◌, List};
ghost use Rattle.update_model.specs.Rule.{RuleData};
ghost use Rattle.bec_bytes.specs.Framed.{stream_of};
ghost use Rattle.update_log.specs.Logset.{BeginsWith, IsLogset};
ghost use Rattle.update_check.specs.Members.{AreMembers};

/// Bytes stand for one list.
pub fn one_logset()
    ensures { (rule : RuleData) (bytes : List ℕ) (members others : List (List ℕ))
        → IsLogset rule bytes members → IsLogset rule bytes others → members ≡ others }
{}

/// A list whose records bytes begin with stands in front of the list that the bytes stand for.
pub fn logset_begins()
    ensures { (rule : RuleData) (bytes : List ℕ) (members before : List (List ℕ))
        → IsLogset rule bytes members → AreMembers rule before → BeginsWith (stream_of before) bytes
        → (added : List (List ℕ)) × (members ≡ before ++ added) }
{}

/// The records of a list, and nothing else, stand for that list.
pub fn whole_logset()
    ensures { (rule : RuleData) (members : List (List ℕ)) → AreMembers rule members
        → IsLogset rule (stream_of members) members }
{}
