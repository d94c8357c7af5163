//! Laws of the test. Each function does nothing: its contract is a theorem for callers to cite.

ghost use Rattle.std.specs.Prelude.{◌≡◌, ℕ, List, [], IsTrue};
ghost use Rattle.std.specs.List.{list_all};
ghost use Rattle.table_model.specs.declared.counterexample.Counterexample.{Counterexample};
ghost use Rattle.table_model.specs.declared.invariant.Invariant.{Invariant};
ghost use Rattle.confluence_laws.specs.Confluence.{are_accepted, confirms};
ghost use Rattle.schema.specs.Samples.{SamplesPass};
ghost use Rattle.table_model.specs.Invariants.{claims_of, invariants_of};
ghost use Rattle.schema_text.specs.Schemas.{Declares};
ghost use Rattle.schema.specs.Data.{Meaning, SchemaData};
ghost use Rattle.schema.specs.Sound.{AreTables};
ghost use Rattle.table_model.specs.Visible.{Rules, rules_with};
ghost use Rattle.table_model.specs.Verdicts.{is_unlimited};
ghost use Rattle.confluence_test.specs.declared.refusal.SchemaRefusal.{SchemaRefusal};
ghost use Rattle.confluence_test.specs.Taking.{RefusesSchema, TakesSchema};
ghost use Rattle.confluence_test.specs.Tests.{IsRefused};

use confluence_laws::first_refused_is_confirmed;
use schema_text::{declared_is_sound, declared_samples_pass, no_fault, one_fault, one_schema};

/// The counterexample of a refusal confirms, whatever native checks mean, as long as the samples pass: both of its
/// sides are closed and satisfy every invariant up to the refused one, and both together break that one.
pub fn refused_is_confirmed()
    ensures { (rules : Rules) (which : Invariant) (example : Counterexample) (refused : IsRefused rules which example)
        → AreTables [] rules.tables → SamplesPass rules.ask rules.tables
        → IsTrue (confirms rules (claims_of refused.earlier) refused.declared.claim example) }
{
    first_refused_is_confirmed();
}

/// Of a schema that a text declares under a meaning of native checks, the counterexample of a refusal confirms under
/// that meaning: the samples pass under it, so nothing is left to suppose.
pub fn declared_refusal_is_confirmed()
    ensures { (relation : Meaning) (text : List ℕ) (schema : SchemaData) (which : Invariant) (example : Counterexample)
        → Declares relation text schema → (refused : IsRefused (rules_with relation schema.tables) which example)
        → IsTrue (confirms (rules_with relation schema.tables) (claims_of refused.earlier) refused.declared.claim
        example) }
{
    declared_is_sound();
    declared_samples_pass();
    refused_is_confirmed();
}

/// Where every invariant is accepted, no table has a `UNIQUE` without `KEEP LEAST` or an `ATMOST`.
pub fn accepted_is_unlimited()
    ensures { (rules : Rules) → IsTrue (are_accepted rules (invariants_of rules))
        → IsTrue (list_all is_unlimited rules.tables) }
{}

/// A text that is taken is not refused.
pub fn taken_or_refused()
    ensures { (ask : Meaning) (text : List ℕ) (schema : SchemaData) (refusal : SchemaRefusal)
        → TakesSchema ask text schema → RefusesSchema ask text refusal → ⊥ }
{
    no_fault();
    one_fault();
    one_schema();
}

/// A text is refused for one reason.
pub fn refused_once()
    ensures { (ask : Meaning) (text : List ℕ) (refusal other : SchemaRefusal) → RefusesSchema ask text refusal
        → RefusesSchema ask text other → refusal ≡ other }
{
    no_fault();
    one_fault();
    one_schema();
}
