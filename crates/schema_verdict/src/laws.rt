//! Laws of verdicts. Each function does nothing: its contract is a theorem for callers to cite.

ghost use Rattle.std.specs.Prelude.{◌≡◌, ℕ, List, Some};
ghost use Rattle.std.specs.declared.option.Option.{Option as Told};
ghost use Rattle.schema_verdict.specs.Checks.{Verdict, status_of, text_of};
ghost use Rattle.schema_verdict.specs.Verdict.{CheckAnswer};

use confluence_test::{refused_once, taken_or_refused};

/// An input has one verdict, so each status and each text comes exactly where its cause stands.
pub fn one_verdict()
    ensures { (input : List ℕ) (after other : Told (List ℕ)) (verdict another : Verdict)
        → CheckAnswer (λ why. why) (Some input) after verdict
        → CheckAnswer (λ why. why) (Some input) other another → (status_of verdict ≡ status_of another)
        × (text_of verdict ≡ text_of another) }
{
    refused_once();
    taken_or_refused();
}
