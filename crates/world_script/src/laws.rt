//! Laws of the definitions. Each function does nothing: its contract is a theorem for callers to cite.

ghost use Rattle.std.specs.Prelude.{◌≡◌, ℕ, List};
ghost use Rattle.schema.specs.Data.{Meaning};
ghost use Rattle.world_script.specs.declared.fault.ScriptFault.{ScriptFault};
ghost use Rattle.world_script.specs.declared.script.Script.{Script};
ghost use Rattle.world_script.specs.Scripts.{FirstFault, IsScript};

use schema_text::{no_fault as no_schema_fault, one_fault as one_schema_fault, one_schema};
use txn_text::one_transaction;

/// A text is at most one script.
pub fn one_script()
    ensures { (ask : Meaning) (text : List ℕ) (script other : Script) → IsScript ask text script
        → IsScript ask text other → script ≡ other }
{
    one_transaction();
    one_schema();
}

/// A text has at most one first fault.
pub fn one_fault()
    ensures { (ask : Meaning) (text : List ℕ) (fault other : ScriptFault) → FirstFault ask text fault
        → FirstFault ask text other → fault ≡ other }
{
    one_transaction();
    one_schema();
    one_schema_fault();
    no_schema_fault();
}

/// A text that is a script has no fault.
pub fn no_fault()
    ensures { (ask : Meaning) (text : List ℕ) (script : Script) (fault : ScriptFault) → IsScript ask text script
        → FirstFault ask text fault → ⊥ }
{
    one_transaction();
    one_schema();
    no_schema_fault();
}
