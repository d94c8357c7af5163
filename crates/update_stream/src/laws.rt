//! Laws of streams. Each function does nothing: its contract is a theorem for callers to cite.

ghost use Rattle.std.specs.Prelude.{◌≡◌, ℕ, List, Option, Some};
ghost use Rattle.update_model.specs.Rule.{RuleData};
ghost use Rattle.update_check.specs.Members.{AreMembers};
ghost use Rattle.update_stream.specs.declared.record_fault.RecordFault.{RecordFault};
ghost use Rattle.update_stream.specs.Stream.{IsWhole, IsRefused};

use update_check::{no_cause, one_cause};

/// A stream that is whole has one graph.
pub fn one_graph()
    ensures { (given : Option RuleData) (input : List ℕ) (members others : List (List ℕ)) → IsWhole given input members
        → IsWhole given input others → members ≡ others }
{}

/// A stream is refused at one record, for one fault.
pub fn one_refusal()
    ensures { (given : Option RuleData) (input rest other : List ℕ) (m n : ℕ) (fault another : RecordFault)
        → IsRefused given input rest m fault → IsRefused given input other n another → (m ≡ n) × (fault ≡ another) }
{
    one_cause();
    no_cause();
}

/// No stream is both whole and refused.
pub fn whole_or_refused()
    ensures { (given : Option RuleData) (input rest : List ℕ) (members : List (List ℕ)) (n : ℕ) (fault : RecordFault)
        → IsWhole given input members → IsRefused given input rest n fault → ⊥ }
{
    no_cause();
}

/// A whole stream under a rule has members of its database.
pub fn whole_has_members()
    ensures { (rule : RuleData) (input : List ℕ) (members : List (List ℕ)) → IsWhole (Some rule) input members
        → AreMembers rule members }
{}
