//! Laws of the causes and of members. Each function does nothing: its contract is a theorem for callers to cite.

ghost use Rattle.std.specs.Prelude.{◌≡◌, ◌++◌, ℕ, List};
ghost use Rattle.update_model.specs.Rule.{RuleData};
ghost use Rattle.update_check.specs.declared.check_error.CheckFault.{CheckFault};
ghost use Rattle.update_check.specs.Causes.{IsCause};
ghost use Rattle.update_check.specs.Members.{AreMembers};
ghost use Rattle.update_check.specs.Signed.{IsChecked};

use update_codec::{no_fault, one_fault, one_update};

/// Under one rule bytes are refused for one fault.
pub fn one_cause()
    ensures { (rule : RuleData) (bytes : List ℕ) (fault other : CheckFault)
        → IsCause rule bytes fault → IsCause rule bytes other → fault ≡ other }
{
    one_update();
    one_fault();
    no_fault();
}

/// What is checked is not refused.
pub fn no_cause()
    ensures { (rule : RuleData) (bytes : List ℕ) (fault : CheckFault) → IsCause rule bytes fault → IsChecked rule bytes
        → ⊥ }
{
    one_update();
    no_fault();
}

/// The first of so many members are members too.
pub fn front_of_members()
    ensures { (rule : RuleData) (front back : List (List ℕ)) → AreMembers rule (front ++ back) → AreMembers rule front }
{}
