//! Laws of the commands. Each function does nothing: its contract is a theorem for callers to cite.

ghost use Rattle.std.specs.Prelude.{◌≡◌, ℕ, List, Some};
ghost use Rattle.std.specs.declared.option.Option.{Option as Told};
ghost use Rattle.outcomes.specs.Outcome.{Outcome, status_of, text_of};
ghost use Rattle.outcomes.specs.StoreAnswers.{Printing, ReadsStore, Readings};
ghost use Rattle.audit_commands.specs.Audits.{ShowsDoubled};
ghost use Rattle.audit_commands.specs.Confirming.{ConfirmAnswer};

use audit_text::one_certificate;
use key_audit::found_once;
use store_directory::{one_store, store_or_not};

/// What the parts of a directory read as has one answer to `audit`, and an input one to `confirm`: so each status and
/// each text comes exactly where its cause stands.
pub fn one_answer_of_audits()
    ensures audit { (parts : Readings) (added others : List (List ℕ)) (outcome another : Outcome)
        → ReadsStore (Printing ShowsDoubled) parts added outcome → ReadsStore (Printing ShowsDoubled) parts others
        another → (status_of outcome ≡ status_of another) × (text_of outcome ≡ text_of another) }
    ensures confirm { (input : List ℕ) (after other : Told (List ℕ)) (outcome another : Outcome)
        → ConfirmAnswer (Some input) after outcome → ConfirmAnswer (Some input) other another
        → (status_of outcome ≡ status_of another) × (text_of outcome ≡ text_of another) }
{
    found_once();
    one_certificate();
    one_store();
    store_or_not();
}
