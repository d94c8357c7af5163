//! Laws of the definitions. Each function does nothing: its contract is a theorem for callers to cite.

ghost use Rattle.std.specs.Prelude.{ℕ, Bool, List};
ghost use Rattle.schema.specs.Data.{Meaning};
ghost use Rattle.world_commands.specs.Answers.{Reports, types_of};
ghost use Rattle.world_rules.specs.Drawn.{HaveDrawnKeys};
ghost use Rattle.world_rules.specs.Happens.{IsReached};
ghost use Rattle.world_script.specs.declared.script.Script.{Script};

use world_rules::each_replica_has_its_own_key;

/// The world that a report shows came about from a new one of the script's schema, and its replicas have the keys that
/// the script's number draws: so all laws of worlds hold of it, and no two of its replicas have one key.
pub fn reported_worlds_are_reached()
    ensures reached { (ask : Meaning) (audit : Bool) (script : Script) (text : List ℕ) (report : Reports ask audit script text)
        → IsReached ask report.schema report.last }
    ensures keys { (ask : Meaning) (audit : Bool) (script : Script) (text : List ℕ)
        (report : Reports ask audit script text) → HaveDrawnKeys (types_of script) script.number report.last.sites }
{
    each_replica_has_its_own_key();
}
